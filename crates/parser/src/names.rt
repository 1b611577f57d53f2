// Source names, references and the other names that are made of letters and digits alone.
ghost use Rattle.std.specs.Prelude.{◌≡◌, ◌∷◌, ◌+◌, ◌≤◌, length};
ghost use Rattle.std.proofs.Math.ListN.{get_elem?};
ghost use Rattle.grammar.specs.Text.{choose, decimal};
ghost use Rattle.grammar.specs.Limits.{most_text_bytes, kept_bytes};
ghost use Rattle.grammar.specs.Reader.{give};
ghost use Rattle.grammar.specs.Grammar.{⟨source-name⟩, ⟨template-param⟩, ⟨substitution⟩, unnamed_type_name, reading};
ghost use Rattle.parser.specs.Demanglers.{Prepared, Leaf};
ghost use Rattle.parser.specs.Source.{identified, behind_number, Closes};
ghost use Rattle.parser.specs.References.{entry_at, Indexes};

use crate::demangler::Demangler;
use crate::memory::{given, sum};
use grammar::codes;
use grammar::numbers::{Number, digits, write_decimal};
use grammar::part::Part;
use grammar::refusal::Refusal;
use grammar::text::{before, here};

// The place behind digits and an underscore, if there are any.
pub fn numbered(s: &[u8], at: usize) -> usize
    requires { at ≤ length s.now }
    ensures { (result ≡ behind_number s.now at) × (result ≤ length s.now) }
{
    let end = digits::<10>(s, at).next;
    if here(s, end, b'_') { end + 1 } else { end }
}

// The identifier behind its length.
pub fn identifier(s: &[u8], at: usize) -> Option<Part>
    requires { (at ≤ length s.now) × (length s.now ≤ most_text_bytes) }
    ensures { result ≡ identified s.now at }
{
    let length = digits::<10>(s, at);
    let from = length.next;
    if length.value == 0 {
        return None;
    }
    let left = (s.len() - from) as u64;
    if left < length.value {
        return None;
    }
    Some(Part {
        from,
        to: from + length.value as usize,
    })
}

impl Demangler<'_> {
    // A closing bracket for each tag.
    fn close_tags(&mut self, tags: usize)
        ensures { Closes tags self.old self.new }
    {
        for _ in 0..tags {
            self.stack.put(b"]");
        }
    }

    // <source-name> ::= <positive length number> <identifier>
    // <abi-tags> ::= B <source-name>
    pub fn source_name(&mut self) -> Result<usize, Refusal>
        requires { (self.old.state.at ≤ length self.old.s.now) × (length self.old.s.now ≤ most_text_bytes) }
        ensures { Leaf (reading ⟨source-name⟩) kept_bytes (self.old.state.at + 1) self.old self.new result }
    {
        let mut n: usize = 0;
        let mut tags: usize = 0;
        loop {
            let part = identifier(self.s, self.state.at).ok_or(Refusal::NoRule)?;
            self.state.at = part.to;
            self.stack.put(&self.s[part.from..part.to]);
            n = sum(n, part.to - part.from);
            if !self.eat(b'B') {
                self.close_tags(tags);
                return given(sum(n, tags));
            }
            self.stack.put(b"[abi:");
            n = sum(n, 5);
            tags += 1;
        }
    }

    // <substitution> ::= St | Sa | .. | S_ | S <seq-id> _
    pub fn substitution(&mut self) -> Result<usize, Refusal>
        requires { Prepared self.old }
        ensures { Leaf (reading ⟨substitution⟩) kept_bytes (self.old.state.at + 1) self.old self.new result }
    {
        self.need(b'S')?;
        let c = self.peek().ok_or(Refusal::NoRule)?;
        let Some(word) = codes::abbreviation(c) else {
            return self.old_entry();
        };
        self.state.at += 1;
        self.stack.put(word);
        Ok(word.len())
    }

    // A number by the base and its _, or _ alone: none. 4 where there is no _.
    fn index<const BASE: u64>(&mut self) -> Result<Option<u64>, Refusal>
        requires { 1 ≤ BASE }
        ensures { Indexes BASE self.old self.new result }
    {
        let at = self.state.at;
        let number = digits::<BASE>(self.s, at);
        self.state.at = number.next;
        self.need(b'_')?;
        if number.next == at {
            return Ok(None);
        }
        Ok(Some(number.value))
    }

    // S_ | S <seq-id> _, behind S
    fn old_entry(&mut self) -> Result<usize, Refusal>
        requires { Prepared self.old }
        ensures { Leaf entry_at kept_bytes self.old.state.at self.old self.new result }
    {
        let k = match self.index::<36>()? {
            None => 0,
            Some(n) => n.saturating_add(1),
        };
        self.recall(k as usize)
    }

    // <template-param> ::= T_ | T <number> _
    pub fn template_param(&mut self) -> Result<usize, Refusal>
        requires { Prepared self.old }
        ensures { Leaf (reading ⟨template-param⟩) kept_bytes (self.old.state.at + 1) self.old self.new result }
    {
        self.need(b'T')?;
        let i = match self.index::<10>()? {
            None => 0,
            Some(Number::PAST) => return Err(Refusal::NoRule),
            Some(n) => n + 1,
        };
        self.argument(i)
    }

    // Template argument i, or T and i.
    pub fn argument(&mut self, i: u64) -> Result<usize, Refusal>
        requires { Prepared self.old }
        ensures { Leaf (λ σ. choose (get_elem? σ.args i) give (give (84 ∷ decimal 20 i)) σ) kept_bytes self.old.state.at self.old self.new result }
    {
        if i < self.args.count as u64 {
            return self.recall_arg(i as usize);
        }
        Ok(self.number(i))
    }

    // T and the number in decimal.
    pub fn number(&mut self, i: u64) -> usize
        ensures { Leaf (give (84 ∷ decimal 20 i)) kept_bytes self.old.state.at self.old self.new (Ok result) }
    {
        let mut text = [0u8; 21];
        let start = write_decimal(&mut text, 21, i) - 1;
        text[start] = b'T';
        self.stack.put(&text[start..]);
        21 - start
    }

    // <unnamed-type-name> ::= Ut [<number>] _
    // <closure-type-name> ::= Ul <lambda-sig> E [<number>] _, behind U
    pub fn unnamed_type_name(&mut self) -> Result<usize, Refusal>
        ensures { Leaf unnamed_type_name kept_bytes self.old.state.at self.old self.new result }
    {
        let kind = self.take()?;
        if kind == b'l' {
            let end = before(self.s, self.state.at, b'E');
            if self.s.len() <= end {
                return Err(Refusal::NoRule);
            }
            self.state.at = numbered(self.s, end + 1);
            self.stack.put(b"{lambda}");
            return Ok(8);
        }
        self.state.at = numbered(self.s, self.state.at);
        self.stack.put(b"{unnamed}");
        Ok(9)
    }
}
