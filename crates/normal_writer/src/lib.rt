// The writing of normal symbols: the cycle of types, arguments and nested names, and whole symbols.
#![tactic(auto)]

pub mod cycle;
pub mod symbol;
