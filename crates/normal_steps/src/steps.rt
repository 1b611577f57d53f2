// The steps of the writing that call no reading back.
ghost use Rattle.std.specs.Prelude.{◌||◌, [], ◌∷◌, ◌≡◌, ◌≤◌, ◌<◌, eqb, length, drop, None};
ghost use Rattle.grammar.specs.Text.{starts};
ghost use Rattle.grammar.specs.States.{peeked};
ghost use Rattle.normal_nodes.specs.Nodes.{note_at_name, at_reference, a_bare, a_class, may_stand, signed_kind, entered, entered_nested};
ghost use Rattle.normal_steps.specs.Carries.{Ready, Numbered, Stretch, Room, Spare, Kept, KeptBut, Reads, Steps, Does, Copies, Closes, most_number};
ghost use Rattle.normal_steps.specs.Carries.{at_literal, at_part, counts_arg, wraps, but_out, but_entry, but_notes};

use crate::state::{Row, Writer};
use crate::{marks, words};
use grammar::part::Part;
use grammar::text;

// The number of a literal's kind and sign.
fn signed(kind: u8, minus: bool) -> usize
    ensures { result ≡ signed_kind kind minus }
{
    if minus {
        usize::from(kind) + Writer::LEAST
    } else {
        usize::from(kind)
    }
}

// Whether a tag is one of two bytes.
fn one_of(tag: usize, a: u8, b: u8) -> bool
    ensures { result ≡ (eqb tag a || eqb tag b) }
{
    tag == usize::from(a) || tag == usize::from(b)
}

// Whether a wrapper, whose byte is q, may stand on what has the tag.
#[tactic(auto, unfolding(normal_nodes::specs::Nodes::may_stand))]
fn may_stand(q: u8, tag: usize) -> bool
    ensures { result ≡ may_stand q tag }
{
    let references = one_of(usize::from(q), b'R', b'O') && one_of(tag, b'R', b'O');
    let qualifiers = one_of(usize::from(q), b'K', b'V') && one_of(tag, b'K', b'V');
    tag != usize::from(b'L') && !references && !qualifiers
}

// Whether what has the tag is a class without arguments at its end, and whether it is a class.
pub fn bare(tag: usize) -> bool
    ensures { result ≡ a_bare tag }
{
    one_of(tag, b'0', b'N')
}

pub fn class(tag: usize) -> bool
    ensures { result ≡ a_class tag }
{
    bare(tag) || Writer::LEAST <= tag
}

impl Writer<'_> {
    // The next byte.
    pub fn peek(&self) -> Option<u8>
        ensures { result ≡ peeked (drop self.now.state.at self.now.s.now) }
    {
        if self.state.at < self.s.len() {
            Some(self.s[self.state.at])
        } else {
            None
        }
    }

    // Whether it is c.
    pub fn here(&self, c: u8) -> bool
        ensures { result ≡ starts (drop self.now.state.at self.now.s.now) (c ∷ []) }
    {
        text::here(self.s, self.state.at, c)
    }

    // The next byte is written, and taken.
    pub fn copy_byte(&mut self)
        requires { (self.old.state.at < length self.old.s.now) × Ready self.old }
        ensures { KeptBut but_out self.old self.new (Copies self.old self.new) }
    {
        let at = self.state.at;
        let c = self.s[at];
        self.state.at = at + 1;
        self.put_byte(c);
    }

    // E is written.
    pub fn close(&mut self)
        requires { (Spare 1 self.old.state) × Ready self.old }
        ensures { KeptBut but_out self.old self.new (Closes self.old self.new) }
    {
        self.put_byte(b'E');
    }

    // <source-name>, a first part
    pub fn first_name(&mut self) -> Option<usize>
        requires { Ready self.old }
        ensures { Kept self.old self.new (Reads 2 self.old.state.out (note_at_name self.old.state.out) self.old self.new result) }
    {
        let from = self.state.out;
        let word = words::source_name(self.s, self.state.at)?;
        self.state.at = word.to;
        self.put_name(word);
        let u = self.note(Row {
            tag: usize::from(b'0'),
            of: 0,
            word,
        });
        self.enter(u, from);
        Some(u)
    }

    // [<seq-id>] _, behind S: an entry of the table
    pub fn first_reference(&mut self) -> Option<usize>
        requires { (Spare 4 self.old.state) × Ready self.old }
        ensures kept { KeptBut but_out self.old self.new (Reads 1 self.old.state.out (at_reference self.old.state.out) self.old self.new result) }
        ensures refused { result ≡ None → self.new ≡ self.old }
    {
        let from = self.state.out;
        let reference = marks::reference(self.s, self.state.at)?;
        if self.state.table <= reference.index {
            return None;
        }
        let t = self.entry(reference.index);
        self.state.at = reference.end;
        self.settle(t, from);
        Some(t)
    }

    // A literal, behind L
    pub fn literal(&mut self) -> Option<usize>
        requires { Ready self.old }
        ensures { Kept self.old self.new (Reads 1 self.old.state.out at_literal self.old self.new result) }
    {
        let at = self.state.at;
        let literal = marks::literal(self.s, at)?;
        let to = literal.end;
        self.state.at = to;
        self.put_byte(b'L');
        self.put_part(Part { from: at, to });
        let u = self.note(Row {
            tag: usize::from(b'L'),
            of: signed(literal.kind, literal.minus),
            word: Part {
                from: literal.from,
                to: to - 1,
            },
        });
        Some(u)
    }

    // One more part behind what has the number t
    pub fn part(&mut self, t: usize) -> Option<usize>
        requires { (t < most_number) × Ready self.old }
        ensures { Kept self.old self.new (Reads 1 self.old.state.out (at_part t) self.old self.new result) }
    {
        let word = words::source_name(self.s, self.state.at)?;
        self.state.at = word.to;
        self.put_name(word);
        let u = self.note(Row {
            tag: usize::from(b'N'),
            of: t,
            word,
        });
        Some(u)
    }

    // The argument x behind what has the number t
    pub fn arg(&mut self, t: usize, x: usize) -> usize
        requires { (t < most_number) × ((x < most_number) × ((Room 1 0 self.old.state) × Ready self.old)) }
        ensures { KeptBut but_notes self.old self.new (Steps 1 0 0 self.old.state.out (counts_arg t x) self.old self.new (Some result)) }
    {
        let u = self.note(Row {
            tag: x + Writer::LEAST,
            of: t,
            word: Part { from: 0, to: 0 },
        });
        self.state.args += 1;
        u
    }

    // A wrapper, whose byte is c, on what has the number t
    pub fn wrap(&mut self, c: u8, t: usize, from: usize) -> Option<usize>
        requires { (t < most_number) × ((Stretch from self.old.state) × ((Room 1 1 self.old.state) × Ready self.old)) }
        ensures { Kept self.old self.new (Steps 1 1 5 from (wraps c t from) self.old self.new result) }
    {
        if !may_stand(c, self.tag_of(t)) {
            return None;
        }
        let u = self.note(Row {
            tag: usize::from(c),
            of: t,
            word: Part { from: 0, to: 0 },
        });
        self.enter(u, from);
        Some(u)
    }

    // What has the number u enters the table.
    pub fn enter(&mut self, u: usize, from: usize)
        requires { (Numbered self.old.state u) × ((Stretch from self.old.state) × ((Room 0 1 self.old.state) × Ready self.old)) }
        ensures { KeptBut but_entry self.old self.new (Does 0 1 5 from (entered u from) self.old self.new) }
    {
        self.settle(u, from);
        self.push(u);
    }

    // A nested type enters the table, where the newest entry is another.
    pub fn enter_nested(&mut self, u: usize, from: usize)
        requires { (Numbered self.old.state u) × ((Stretch from self.old.state) × ((Room 0 1 self.old.state) × Ready self.old)) }
        ensures { KeptBut but_entry self.old self.new (Does 0 1 5 from (entered_nested u from) self.old self.new) }
    {
        if self.tag_of(u) == usize::from(b'N') && self.newest(u) {
            self.settle(u, from);
            return;
        }
        self.enter(u, from);
    }
}
