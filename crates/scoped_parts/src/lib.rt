//! Parts of lowered programs whose values are in the scope of their part. Nothing runs here: what is proved
//! stands in the lemmas of `proofs`, since it speaks of any facts of the configurations.
#![tactic(auto)]
