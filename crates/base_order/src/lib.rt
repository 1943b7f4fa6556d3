//! The lowered program that is made of an admitted module's configurations for the Base Profile is one
//! straight part, whose operations stand in the profile's order.
#![tactic(auto)]

pub mod laws;
