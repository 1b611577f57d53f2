// The entries, which leave all work slices zero.
#![tactic(auto)]

pub mod names;
pub mod symbols;
