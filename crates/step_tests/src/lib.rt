//! Tests of static steps, on texts of modules.
#![tactic(auto)]

#[cfg(test)]
mod calls;
#[cfg(test)]
mod edges;
#[cfg(test)]
mod given;
#[cfg(test)]
mod integers;
#[cfg(test)]
mod operations;
#[cfg(test)]
mod records;
#[cfg(test)]
mod words;
