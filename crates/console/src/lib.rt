// A program over the listing: standard input to standard output.
#![tactic(auto)]

mod buffer;
pub mod entry;
mod failed;
mod input;
mod output;
mod stream;
mod turns;
