// The state of the writing of a normal symbol, and the slices that it works in.
ghost use Rattle.std.specs.Prelude.{◌≡◌};
ghost use Rattle.normal_steps.specs.States.{begun_at};

use grammar::part::Part;
use grammar::state::Parser;

// What the writing has come to.
#[derive(Clone, Copy)]
pub struct State {
    // the place in the symbol of the next byte to be read
    pub at: usize,
    // the bytes of the normal symbol that are written
    pub out: usize,
    // the nodes: a number for each tree that is not a letter
    pub nodes: usize,
    // the entries of the reading's table
    pub table: usize,
    // the entries of the normal symbol's table: those without later doubles
    pub firsts: usize,
    // the template arguments read, of all lists together
    pub args: usize,
}

impl State {
    // Nothing is read behind `at`, and `out` bytes are written.
    pub fn begun(at: usize, out: usize) -> Self
        ensures { result ≡ begun_at at out }
    {
        State {
            at,
            out,
            nodes: 0,
            table: 0,
            firsts: 0,
            args: 0,
        }
    }
}

// A node to be found or added: its tag, the number below it, and the place of its word in the symbol.
#[derive(Clone, Copy)]
pub struct Row {
    pub tag: usize,
    pub of: usize,
    pub word: Part,
}

// A symbol that is read, and its normal symbol, written in lent slices.
#[derive(Drop)]
pub struct Writer<'a> {
    pub s: &'a [u8],
    // what is written
    pub out: &'a mut [u8],
    // two numbers for each node: its tag and the number below
    pub ends: &'a mut [u16],
    // two for each node: where its word begins and ends in the symbol
    pub words: &'a mut [u16],
    // the table, and from the middle on the place that a node has in the table without later doubles
    pub tables: &'a mut [u16],
    // the newest node of each bucket, and from the middle on the node before it
    pub chains: &'a mut [u16],
    pub state: State,
}

impl Writer<'_> {
    // Where the second half of a slice of numbers begins.
    pub const MIDDLE: usize = Parser::SYMBOL;

    pub const OUT: usize = 4 * Parser::SYMBOL;

    // The number of the first node.
    pub const LEAST: usize = 256;
}
