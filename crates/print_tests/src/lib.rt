//! Tests of reading and printing modules that no program is made of.
#![tactic(auto)]

#[cfg(test)]
mod flags;
