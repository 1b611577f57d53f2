// The definition of the reading stands in specs/. The code here is the reader's state with its limits, the refusals and the leaves.
#![tactic(auto)]

pub mod codes;
pub mod numbers;
pub mod part;
pub mod refusal;
pub mod state;
pub mod text;
