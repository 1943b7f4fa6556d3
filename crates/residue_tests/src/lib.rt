//! Tests of the printed modules of residues: two residues, and the texts of their modules for three targets.
#![tactic(auto)]

#[cfg(test)]
mod residues;
#[cfg(test)]
mod texts;
