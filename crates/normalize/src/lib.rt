// The reading for normal symbols. What the work slices hold at the end is left free: a crate that names this one has to clear
// them.
#![tactic(auto)]

pub mod reading;
