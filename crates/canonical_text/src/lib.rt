//! Laws of canonical texts.
#![tactic(auto)]

mod laws;

pub use laws::canonical_text_has_its_tokens;
