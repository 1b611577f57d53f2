// What is behind _Z: special names, functions and data.
#![tactic(auto)]

pub mod functions;
pub mod mangled;
mod thunks;
