//! The edges of the limits of the whole program: what is just taken, and what is just refused.
#![tactic(auto)]

#[cfg(test)]
mod bits;
#[cfg(test)]
mod literals;
#[cfg(test)]
mod names;
#[cfg(test)]
mod required;
#[cfg(test)]
mod rows;
#[cfg(test)]
mod sizes;
#[cfg(test)]
mod texts;
