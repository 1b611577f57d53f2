// A stack of texts in 51,200 bytes: the first `top` bytes, the newest last; those behind them may be anything. Where a text
// does not fit, the oldest bytes leave and the newest 34,816 stay.
ghost use Rattle.std.specs.Prelude.{◌≡◌, [], ◌∷◌, ◌++◌, ◌+◌, ◌-◌, ◌*◌, ◌≤◌, ◌<◌, length, take, drop};
ghost use Rattle.grammar.specs.Limits.{most_text_bytes, kept_bytes, stack_bytes};
ghost use Rattle.grammar.specs.Grammar.{at_slots};
ghost use Rattle.store.specs.Stack.{Put, Cut, Room, Grown, slots_in, at_slot, newest, below_newest};

use grammar::state::Parser;
use grammar::text;
use memchr::memchr_iter;

// How many of its newest bytes a full stack keeps: those of an entry, and what readings may drop above it.
const KEPT: usize = Parser::BYTES + 2048;

// The length of the stack.
pub const LENGTH: usize = KEPT + Parser::TEXT;

// How many slots stand in a text. Few or none do: a search passes over many bytes at a time, where `count` would take each.
pub fn slots(text: &[u8]) -> usize
    ensures { (result ≡ slots_in text.now) × (result ≤ length text.now) }
{
    let mut found: usize = 0;
    for _ in memchr_iter(1, text) {
        found += 1;
    }
    found
}

#[derive(Drop)]
pub struct Stack<'a> {
    pub bytes: &'a mut [u8],
    pub top: usize,
    pub ghost size: { length bytes.now ≡ stack_bytes },
    pub ghost most: { top ≤ stack_bytes },
}

impl Stack<'_> {
    // Removes the k bytes that stand below the newest n.
    pub fn cut(&mut self, k: usize, n: usize)
        requires { k + n ≤ self.old.top }
        ensures same { self.new.bytes.ghost_name ≡ self.old.bytes.ghost_name }
        ensures left { Cut self.old.bytes.now self.new.bytes.now self.old.top self.new.top k n }
    {
        let from = self.top - n;
        self.bytes.copy_within(from..self.top, from - k);
        self.top -= k;
    }

    // Room for so many bytes.
    pub fn room(&mut self, size: usize)
        requires { size ≤ most_text_bytes }
        ensures same { self.new.bytes.ghost_name ≡ self.old.bytes.ghost_name }
        ensures left { Room self.old.bytes.now self.new.bytes.now self.old.top self.new.top size }
    {
        if LENGTH - self.top < size {
            self.cut(self.top - KEPT, KEPT);
        }
    }

    // The word, for which there is room, on the top.
    fn place(&mut self, word: &[u8])
        requires { self.old.top + length word.now ≤ stack_bytes }
        ensures same { self.new.bytes.ghost_name ≡ self.old.bytes.ghost_name }
        ensures left { Grown self.old.bytes.now self.new.bytes.now self.old.top self.new.top word.now }
    {
        text::copy(self.bytes, self.top, word);
        self.top += word.len();
    }

    // The byte, for which there is room, on the top.
    fn place_byte(&mut self, x: u8)
        requires { self.old.top < stack_bytes }
        ensures same { self.new.bytes.ghost_name ≡ self.old.bytes.ghost_name }
        ensures left { Grown self.old.bytes.now self.new.bytes.now self.old.top self.new.top (x ∷ []) }
    {
        self.bytes[self.top] = x;
        self.top += 1;
    }

    // The n bytes at `from`, for which there is room, on the top once more.
    fn repeat(&mut self, from: usize, n: usize)
        requires { (from + n ≤ self.old.top) × (self.old.top + n ≤ stack_bytes) }
        ensures same { self.new.bytes.ghost_name ≡ self.old.bytes.ghost_name }
        ensures left { Grown self.old.bytes.now self.new.bytes.now self.old.top self.new.top (take n (drop from self.old.bytes.now)) }
    {
        self.bytes.copy_within(from..from + n, self.top);
        self.top += n;
    }

    // Puts `word` on the top.
    pub fn put(&mut self, word: &[u8])
        requires { length word.now ≤ most_text_bytes }
        ensures same { self.new.bytes.ghost_name ≡ self.old.bytes.ghost_name }
        ensures left { Put self.old.bytes.now self.new.bytes.now self.old.top self.new.top word.now }
    {
        self.room(word.len());
        self.place(word);
    }

    // Puts the n bytes that begin `back` bytes below the top on it once more.
    pub fn again(&mut self, back: usize, n: usize)
        requires { (n ≤ back) × ((back ≤ self.old.top) × ((back ≤ kept_bytes) × (n ≤ most_text_bytes))) }
        ensures same { self.new.bytes.ghost_name ≡ self.old.bytes.ghost_name }
        ensures left { Put self.old.bytes.now self.new.bytes.now self.old.top self.new.top (take n (drop (self.old.top - back) self.old.bytes.now)) }
    {
        self.room(n);
        self.repeat(self.top - back, n);
    }

    // The newest n bytes.
    pub fn newest(&self, n: usize) -> &[u8]
        requires { n ≤ self.now.top }
        ensures { result.now ≡ newest self.now.bytes.now self.now.top n }
    {
        &self.bytes[self.top - n..self.top]
    }

    // How many slots stand in the newest n bytes.
    pub fn slots(&self, n: usize) -> usize
        requires { n ≤ self.now.top }
        ensures { (result ≡ slots_in (newest self.now.bytes.now self.now.top n)) × (result ≤ n) }
    {
        slots(self.newest(n))
    }

    // Puts the byte x on the top, and before a slot the d bytes at `low` and the word.
    fn piece(&mut self, low: usize, d: usize, word: &[u8], x: u8)
        requires { (low + d ≤ self.old.top)
            × (self.old.top + length (at_slot (take d (drop low self.old.bytes.now) ++ word.now) x) ≤ stack_bytes) }
        ensures same { self.new.bytes.ghost_name ≡ self.old.bytes.ghost_name }
        ensures left { Grown self.old.bytes.now self.new.bytes.now self.old.top self.new.top
            (at_slot (take d (drop low self.old.bytes.now) ++ word.now) x) }
    {
        if x == 1 {
            self.repeat(low, d);
            self.place(word);
        }
        self.place_byte(x);
    }

    // Puts the newest n bytes on the top once more, with the d bytes below them and the word in front of each slot.
    fn pieces(&mut self, n: usize, d: usize, word: &[u8])
        requires { (d + n ≤ self.old.top)
            × (self.old.top + length (at_slots (below_newest self.old.bytes.now self.old.top n d ++ word.now) (newest self.old.bytes.now self.old.top n)) ≤ stack_bytes) }
        ensures same { self.new.bytes.ghost_name ≡ self.old.bytes.ghost_name }
        ensures left { Grown self.old.bytes.now self.new.bytes.now self.old.top self.new.top
            (at_slots (below_newest self.old.bytes.now self.old.top n d ++ word.now) (newest self.old.bytes.now self.old.top n)) }
    {
        let from = self.top - n;
        for i in from..from + n {
            let x = self.bytes[i];
            self.piece(from - d, d, word, x);
        }
    }

    // The same, and room is made for it first.
    pub fn weave(&mut self, n: usize, d: usize, word: &[u8])
        requires { (d + n ≤ self.old.top) × ((d + n ≤ kept_bytes) × ((length word.now ≤ most_text_bytes)
            × (n + slots_in (newest self.old.bytes.now self.old.top n) * (d + length word.now) ≤ most_text_bytes))) }
        ensures same { self.new.bytes.ghost_name ≡ self.old.bytes.ghost_name }
        ensures left { Put self.old.bytes.now self.new.bytes.now self.old.top self.new.top
            (at_slots (below_newest self.old.bytes.now self.old.top n d ++ word.now) (newest self.old.bytes.now self.old.top n)) }
    {
        let holes = self.slots(n);
        self.room(n + holes * (d + word.len()));
        self.pieces(n, d, word);
    }
}
