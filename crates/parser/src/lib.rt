// The readings that call no other reading back.
#![tactic(auto)]

pub mod demangler;
pub mod leaf;
pub mod literal;
pub mod memory;
pub mod names;
pub mod types;
