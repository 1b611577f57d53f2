// The listing of lines.
#![tactic(auto)]

pub mod feeds;
pub mod listing;
