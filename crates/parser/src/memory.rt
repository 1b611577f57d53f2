// Texts that become entries and are returned, with refusals 7 and 9 to 11.
ghost use Rattle.std.specs.Prelude.{◌≡◌, List, [], ◌+◌, ◌≤◌, ◌<◌, min, get_or};
ghost use Rattle.std.proofs.Math.ListN.{get_elem?};
ghost use Rattle.grammar.specs.Text.{Text, choose};
ghost use Rattle.grammar.specs.Limits.{most_text_bytes, most_entry_bytes, most_length, kept_bytes};
ghost use Rattle.grammar.specs.Reader.{Reader, give, refuse};
ghost use Rattle.store.specs.Table.{Entries};
ghost use Rattle.parser.specs.Recalls.{Recalls};
ghost use Rattle.parser.specs.Demanglers.{Prepared, StackAlone, Leaf, given_length, Turns, PushesSub, PushesArg, Records, TooLong, Newest};

use crate::demangler::Demangler;
use grammar::refusal::Refusal;
use grammar::state::Parser;
use store::stack::Stack;
use store::table::Table;

// The lengths of two texts together, as far as it matters.
pub fn sum(a: usize, b: usize) -> usize
    requires { (a ≤ most_length) × (b ≤ most_length) }
    ensures { result ≡ min (a + b) most_length }
{
    (a + b).min(Parser::LENGTH)
}

// The length of a text that is returned: 11 where it is too long.
pub fn given(n: usize) -> Result<usize, Refusal>
    ensures { result ≡ given_length n }
{
    if Parser::TEXT < n {
        return Err(Refusal::LongText);
    }
    Ok(n)
}

// Entry k of a table onto the stack: 11 where it is too long.
fn entry(stack: &mut Stack, table: &Table, k: usize) -> Result<usize, Refusal>
    requires { (l : List Text) × ((Entries l table.now.bytes.now table.now.ends.now table.now.count table.now.used) × (k < table.now.count)) }
    ensures same { stack.new.bytes.ghost_name ≡ stack.old.bytes.ghost_name }
    ensures recalls { (l : List Text) → Entries l table.now.bytes.now table.now.ends.now table.now.count table.now.used → Recalls (get_or l k []) stack.old stack.new result }
{
    let text = table.get(k);
    let n = given(text.len())?;
    stack.put(text);
    Ok(n)
}

impl Demangler<'_> {
    // The c bytes below the newest m go behind them, with a space between.
    pub fn turned(&mut self, c: usize, m: usize)
        requires { (c ≤ most_text_bytes) × ((m ≤ most_text_bytes) × (c + m ≤ self.old.stack.top)) }
        ensures { Turns c m self.old self.new }
    {
        self.stack.put(b" ");
        self.stack.again(c + m + 1, c);
        self.stack.cut(c, m + 1 + c);
    }

    // The newest n bytes become an entry: 9 where it does not fit.
    pub fn push_sub(&mut self, n: usize) -> Result<(), Refusal>
        requires { min n most_entry_bytes ≤ self.old.stack.top }
        ensures { PushesSub n self.old self.new result }
    {
        if !self.subs.has_room(n) {
            return Err(Refusal::TableFull);
        }
        self.subs.push(self.stack.newest(n));
        Ok(())
    }

    // The newest n bytes become a template argument: 10 where it does not fit.
    pub fn push_arg(&mut self, n: usize) -> Result<(), Refusal>
        requires { min n most_entry_bytes ≤ self.old.stack.top }
        ensures { PushesArg n self.old self.new result }
    {
        if !self.args.has_room(n) {
            return Err(Refusal::ArgumentsFull);
        }
        self.args.push(self.stack.newest(n));
        Ok(())
    }

    // The newest n bytes become an entry and are returned.
    pub fn recorded(&mut self, n: usize) -> Result<usize, Refusal>
        requires { min n most_entry_bytes ≤ self.old.stack.top }
        ensures { Records n self.old self.new result }
    {
        self.push_sub(n)?;
        given(n)
    }

    // Why a text of n bytes, which is too long to be returned, is refused: 9 where it would not even be an entry, else 11.
    pub fn too_long(&self, n: usize) -> Refusal
        ensures { TooLong n self.now result }
    {
        if self.subs.has_room(n) {
            Refusal::LongText
        } else {
            Refusal::TableFull
        }
    }

    // Entry k of the substitutions onto the stack: 7 where there is none.
    pub fn recall(&mut self, k: usize) -> Result<usize, Refusal>
        requires { Prepared self.old }
        ensures others { StackAlone self.old self.new }
        ensures reads { Leaf (λ σ. choose (get_elem? σ.subs k) give (refuse 7) σ) kept_bytes self.old.state.at self.old self.new result }
    {
        if self.subs.count <= k {
            return Err(Refusal::PastTable);
        }
        entry(&mut self.stack, &self.subs, k)
    }

    // Template argument k, which there is, onto the stack.
    pub fn recall_arg(&mut self, k: usize) -> Result<usize, Refusal>
        requires { (Prepared self.old) × (k < self.old.args.count) }
        ensures others { StackAlone self.old self.new }
        ensures reads { (f : Reader Text) → Leaf (λ σ. choose (get_elem? σ.args k) give f σ) kept_bytes self.old.state.at self.old self.new result }
    {
        entry(&mut self.stack, &self.args, k)
    }

    // Whether the newest n bytes are the newest entry.
    pub fn newest_entry(&self, n: usize) -> bool
        requires { (Prepared self.now) × (n ≤ self.now.stack.top) }
        ensures { Newest n self.now result }
    {
        let count = self.subs.count;
        if count == 0 {
            return false;
        }
        self.stack.newest(n) == self.subs.get(count - 1)
    }
}
