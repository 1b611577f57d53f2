// The reader's state, by value.
ghost use Rattle.std.specs.Prelude.{◌≡◌, drop};
ghost use Rattle.grammar.specs.States.{peeked};
ghost use Rattle.grammar.specs.Parsers.{begun, taken, eaten, deeper, back_at};

use crate::part::Part;
use crate::refusal::Refusal;

#[derive(Clone, Copy, Debug, PartialEq, Eq)]
pub struct Parser {
    // the place in the symbol of the next byte to be read
    pub at: usize,
    // how many readings are open that `enter` counts
    pub depth: usize,
    // the qualifiers of the newest nested name
    pub cv: Part,
    // whether the newest name has template arguments
    pub templated: bool,
}

impl Parser {
    // How many readings may be open.
    pub const DEPTH: usize = 96;

    // How many substitutions, and how many template arguments.
    pub const ENTRIES: usize = 1024;

    // The bytes of a symbol.
    pub const SYMBOL: usize = 16384;

    // The bytes of a text that is returned.
    pub const TEXT: usize = 16384;

    // The bytes of all substitutions, and of all template arguments.
    pub const BYTES: usize = 32768;

    // The length of a text is counted up to this.
    pub const LENGTH: usize = 2 * Parser::BYTES;

    pub fn new() -> Self
        ensures { result ≡ begun }
    {
        Parser {
            at: 0,
            depth: 0,
            cv: Part { from: 0, to: 0 },
            templated: false,
        }
    }

    // The next byte. The state stays as it is, so that none is handed back.
    pub fn peek(self, s: &[u8]) -> Option<u8>
        ensures { result ≡ peeked (drop self.at s.now) }
    {
        s.get(self.at).copied()
    }

    // The next byte, and the state behind it.
    pub fn take(mut self, s: &[u8]) -> Option<(u8, Self)>
        ensures { result ≡ taken self (drop self.at s.now) }
    {
        let c = self.peek(s)?;
        self.at += 1;
        Some((c, self))
    }

    // The state behind the byte c, if it is the next one.
    pub fn eat(self, s: &[u8], c: u8) -> Option<Self>
        ensures { result ≡ eaten self c (drop self.at s.now) }
    {
        let Some((d, next)) = self.take(s) else {
            return None;
        };
        if d == c { Some(next) } else { None }
    }

    // The state one level down: 8 where too many readings are open.
    pub fn enter(mut self) -> Result<Self, Refusal>
        ensures { result ≡ deeper self }
    {
        if Parser::DEPTH <= self.depth {
            return Err(Refusal::TooDeep);
        }
        self.depth += 1;
        Ok(self)
    }

    // The state at the depth of the caller.
    pub fn leave(mut self, depth: usize) -> Self
        ensures { result ≡ back_at self depth }
    {
        self.depth = depth;
        self
    }
}
