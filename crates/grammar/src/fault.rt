//! Why reading stops at a token.

/// Why reading stops at a token, or at the end of the tokens.
#[derive(Clone, Copy, Debug, PartialEq, Eq)]
pub enum Fault<R> {
    /// The tokens before it are a viable prefix, and with it they are none; or they end too early. The flag says whether a
    /// marked part of the grammar could begin here.
    Unexpected(bool),
    /// The token may stand here by its kind, but breaks this side rule.
    Broken(R),
}
