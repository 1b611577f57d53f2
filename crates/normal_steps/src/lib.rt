// The state of the writing of normal symbols, its work slices, and the steps that call no reading back.
#![tactic(auto)]

pub mod lead;
pub mod marks;
pub mod memory;
pub mod state;
pub mod steps;
pub mod words;
pub mod write;
