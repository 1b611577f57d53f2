// What a type puts around the types below it.
ghost use Rattle.std.specs.Prelude.{◌≡◌, ◌+◌, ◌*◌, ◌≤◌, ◌<◌, min, length};
ghost use Rattle.grammar.specs.Limits.{most_text_bytes, most_length};
ghost use Rattle.grammar.specs.Words.{longest_word};
ghost use Rattle.store.specs.Stack.{slots_in, newest};
ghost use Rattle.parser.specs.Demanglers.{Prepared, BuiltinD, Wraps, WrapsSlots, Weaves, WrapsMember};

use crate::demangler::Demangler;
use grammar::codes;
use grammar::refusal::Refusal;
use grammar::state::Parser;

// The length of a text of n bytes with so many more at each of its slots, as far as it matters.
pub fn woven(n: usize, slots: usize, each: usize) -> usize
    requires { (n ≤ most_length) × ((slots ≤ most_length) × (each ≤ most_length)) }
    ensures { result ≡ min (n + slots * each) most_length }
{
    (n + slots * each).min(Parser::LENGTH)
}

impl Demangler<'_> {
    // <builtin-type> of two letters, at D.
    pub fn builtin_d(&mut self) -> Result<usize, Refusal>
        requires { Prepared self.old }
        ensures { BuiltinD self.old self.new result }
    {
        self.state.at += 1;
        let c = self.take()?;
        let word = codes::builtin_d(c).ok_or(Refusal::NoRule)?;
        self.stack.put(word);
        Ok(word.len())
    }

    // A wrapper put at each slot of the newest n bytes, or behind them: an entry.
    pub fn wrap(&mut self, n: usize, c: u8) -> Result<usize, Refusal>
        requires { (n ≤ self.old.stack.top) × (n ≤ most_text_bytes) }
        ensures { Wraps c n self.old self.new result }
    {
        if self.stack.slots(n) != 0 {
            return self.wrap_slots(n, c);
        }
        let word = codes::wrapper(c).ok_or(Refusal::NoRule)?;
        self.stack.put(word);
        self.recorded(n + word.len())
    }

    // A wrapper put at each slot of the newest n bytes: an entry.
    pub fn wrap_slots(&mut self, n: usize, c: u8) -> Result<usize, Refusal>
        requires { (n ≤ self.old.stack.top) × (n ≤ most_text_bytes) }
        ensures { WrapsSlots c n self.old self.new result }
    {
        let word = codes::slot_wrapper(c).ok_or(Refusal::NoRule)?;
        self.woven(n, 0, word)
    }

    // The newest n bytes with the d bytes below them and the word at each slot, in the place of all of them: an entry.
    fn woven(&mut self, n: usize, d: usize, word: &[u8]) -> Result<usize, Refusal>
        requires { (n ≤ most_text_bytes) × ((d ≤ most_text_bytes) × ((length word.now ≤ longest_word) × ((d + n ≤ self.old.stack.top)
            × (slots_in (newest self.old.stack.bytes.now self.old.stack.top n) ≡ 0 → d ≡ 0)))) }
        ensures { Weaves n d word.now self.old self.new result }
    {
        let size = woven(n, self.stack.slots(n), d + word.len());
        if Parser::TEXT < size {
            return Err(self.too_long(size));
        }
        self.stack.weave(n, d, word);
        self.stack.cut(d + n, size);
        self.recorded(size)
    }

    // <pointer-to-member-type>: the newest m bytes are the member, the c below them the class: an entry.
    pub fn wrap_member(&mut self, c: usize, m: usize) -> Result<usize, Refusal>
        requires { (c ≤ most_text_bytes) × ((m ≤ most_text_bytes) × (c + m ≤ self.old.stack.top)) }
        ensures { WrapsMember c m self.old self.new result }
    {
        if self.stack.slots(m) != 0 {
            return self.woven(m, c, b"::*");
        }
        self.turned(c, m);
        self.stack.put(b"::*");
        self.recorded(m + c + 4)
    }
}
