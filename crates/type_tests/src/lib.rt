//! Tests of admission: texts for each rule, with the first fault and its place.
#![tactic(auto)]

#[cfg(test)]
mod rules;
