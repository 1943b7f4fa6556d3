//! Worked examples of the whole program, over sources and sinks in memory.
#![tactic(auto)]

#[cfg(test)]
mod check;
#[cfg(test)]
mod expected;
#[cfg(test)]
mod faults;
#[cfg(test)]
mod forms;
#[cfg(test)]
mod generated;
pub mod given;
#[cfg(test)]
mod lowered_texts;
#[cfg(test)]
mod print;
#[cfg(test)]
mod refused_lowerings;
#[cfg(test)]
mod runs;
#[cfg(test)]
mod texts;
#[cfg(test)]
mod words;
