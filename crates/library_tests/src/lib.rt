//! Tests of the libraries below the readers of texts, one file a library.
#![tactic(auto)]

#[cfg(test)]
mod bits;
#[cfg(test)]
mod cycles;
#[cfg(test)]
mod ends;
#[cfg(test)]
mod module;
#[cfg(test)]
mod operations;
#[cfg(test)]
mod paths;
#[cfg(test)]
mod ports;
#[cfg(test)]
mod records;
#[cfg(test)]
mod script;
#[cfg(test)]
mod values;
