//! Tests of the libraries that read and write module texts, one file a library.
#![tactic(auto)]

#[cfg(test)]
mod llvm;
#[cfg(test)]
mod syntax;
#[cfg(test)]
mod text;
#[cfg(test)]
mod tokens;
