//! Modules in which the configurations of another have places: both behave the same. Nothing runs here; what
//! is proved stands in the lemmas of `proofs`, since it speaks of any relation between places and states.
#![tactic(auto)]
