// The readings that call one another: names, types, template arguments and literals.
#![tactic(auto)]

pub mod cycle;
pub mod lists;
