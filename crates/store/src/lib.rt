// The memory of a demangler, in slices that the caller lends: a stack of texts, and tables of texts.
#![tactic(auto)]

pub mod stack;
pub mod table;
