// A symbol that is read: the place in it, and the texts in lent slices. Bytes that are taken, and readings one level down.
ghost use Rattle.std.specs.Prelude.{◌≡◌, ◌+◌, [], ◌∷◌, drop};
ghost use Rattle.grammar.specs.Text.{starts};
ghost use Rattle.grammar.specs.States.{peeked};
ghost use Rattle.parser.specs.Demanglers.{Least, Begins, at_depth, Takes, Eats, Needs, Enters};

use grammar::refusal::Refusal;
use grammar::state::Parser;
use grammar::text;
use store::stack::Stack;
use store::table::Table;

// The Rust's `Parser`.
#[derive(Drop)]
pub struct Demangler<'a> {
    pub s: &'a [u8],
    pub state: Parser,
    // the texts that are read
    pub stack: Stack<'a>,
    // the substitutions
    pub subs: Table<'a>,
    // the template arguments
    pub args: Table<'a>,
}

impl<'a> Demangler<'a> {
    // Nothing is read yet. The substitutions get the first half of `store` and `ends`, and the template arguments the other.
    pub fn new(
        s: &'a [u8],
        text: &'a mut [u8],
        store: &'a mut [u8],
        ends: &'a mut [u16],
    ) -> Demangler<'a>
        requires { Least text.old store.old ends.old }
        ensures same { result.stack.bytes.ghost_name ≡ text.entry.ghost_name }
        ensures begins { Begins s.now text.old store.old ends.old result }
    {
        let (low, high) = store.split_at_mut(Parser::BYTES);
        let (low_ends, high_ends) = ends.split_at_mut(Parser::ENTRIES);
        Demangler {
            s,
            state: Parser::new(),
            stack: Stack {
                bytes: text,
                top: 0,
            },
            subs: Table {
                bytes: low,
                ends: low_ends,
                count: 0,
                used: 0,
            },
            args: Table {
                bytes: high,
                ends: high_ends,
                count: 0,
                used: 0,
            },
        }
    }
}

impl Demangler<'_> {
    // The next byte.
    pub fn peek(&self) -> Option<u8>
        ensures { result ≡ peeked (drop self.now.state.at self.now.s.now) }
    {
        self.state.peek(self.s)
    }

    // Whether it is c.
    pub fn here(&self, c: u8) -> bool
        ensures { result ≡ starts (drop self.now.state.at self.now.s.now) (c ∷ []) }
    {
        text::here(self.s, self.state.at, c)
    }

    // The next byte is passed over: 4 where there is none.
    pub fn take(&mut self) -> Result<u8, Refusal>
        ensures { Takes self.old self.new result }
    {
        let Some((c, next)) = self.state.take(self.s) else {
            return Err(Refusal::NoRule);
        };
        self.state = next;
        Ok(c)
    }

    // The byte c is passed over, if it is the next one.
    pub fn eat(&mut self, c: u8) -> bool
        ensures { Eats c self.old self.new result }
    {
        let Some(next) = self.state.eat(self.s, c) else {
            return false;
        };
        self.state = next;
        true
    }

    // The same: 4 where it isn't.
    pub fn need(&mut self, c: u8) -> Result<(), Refusal>
        ensures { Needs c self.old self.new result }
    {
        if self.eat(c) {
            Ok(())
        } else {
            Err(Refusal::NoRule)
        }
    }

    // One level down: 8 where too many readings are open.
    pub fn enter(&mut self) -> Result<(), Refusal>
        ensures { Enters self.old self.new result }
    {
        self.state = self.state.enter()?;
        Ok(())
    }

    // Back at the depth of the caller.
    pub fn leave(&mut self, depth: usize)
        ensures { self.new ≡ at_depth self.old depth }
    {
        self.state = self.state.leave(depth);
    }
}
