//! Tests of whole runs: the machine over failing backends, and the lines of `run` and `trace`.
#![tactic(auto)]

#[cfg(test)]
mod failures;
#[cfg(test)]
mod given;
#[cfg(test)]
mod lines;
#[cfg(test)]
mod records;
#[cfg(test)]
mod texts;
#[cfg(test)]
mod traces;
