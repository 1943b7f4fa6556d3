//! Tests of the validators, on texts of modules.
#![tactic(auto)]

#[cfg(test)]
mod given;
#[cfg(test)]
mod tables;
#[cfg(test)]
mod worked;
