// A table of texts: `bytes`, 32,768 of them, has the texts one after another, and `ends`, 1,024 numbers, where each ends; the rest may be
// anything.
ghost use Rattle.std.specs.Prelude.{◌≡◌, List, [], ◌∷◌, ◌++◌, ℕ, ◌+◌, ◌≤◌, ◌<◌, length, take, get_or};
ghost use Rattle.grammar.specs.Text.{Text};
ghost use Rattle.grammar.specs.Limits.{most_entries, most_entry_bytes};
ghost use Rattle.grammar.specs.Reader.{bytes_of};
ghost use Rattle.store.specs.Table.{Front, Entries, Placed, Room, ends_from};

use grammar::part::Part;
use grammar::state::Parser;
use grammar::text;

#[derive(Drop)]
pub struct Table<'a> {
    pub bytes: &'a mut [u8],
    pub ends: &'a mut [u16],
    // how many texts it has, and how many bytes these have
    pub count: usize,
    pub used: usize,
    pub ghost bytes_size: { length bytes.now ≡ most_entry_bytes },
    pub ghost ends_size: { length ends.now ≡ most_entries },
    pub ghost room: { used ≤ most_entry_bytes },
}

impl Table<'_> {
    // No text is left.
    pub fn clear(&mut self)
        ensures stays { (self.new.bytes ≡ self.old.bytes) × (self.new.ends ≡ self.old.ends) }
        ensures none { (self.new.count ≡ 0) × (self.new.used ≡ 0) }
    {
        self.count = 0;
        self.used = 0;
    }

    // Whether it has room for a text of n bytes.
    pub fn has_room(&self, n: usize) -> bool
        ensures { Room self.now.count self.now.used n result }
    {
        self.count < Parser::ENTRIES && n <= Parser::BYTES - self.used
    }

    // The text becomes the next entry.
    pub fn push(&mut self, word: &[u8])
        requires { (self.old.count < most_entries) × (self.old.used + length word.now ≤ most_entry_bytes) }
        ensures same { (self.new.bytes.ghost_name ≡ self.old.bytes.ghost_name) × (self.new.ends.ghost_name ≡ self.old.ends.ghost_name) }
        ensures entries { (l : List Text) → Entries l self.old.bytes.now self.old.ends.now self.old.count self.old.used
            → Entries (l ++ (word.now ∷ [])) self.new.bytes.now self.new.ends.now self.new.count self.new.used }
        ensures size { (self.new.count ≡ self.old.count + 1) × (self.new.used ≡ self.old.used + length word.now) }
    {
        text::copy(self.bytes, self.used, word);
        self.used += word.len();
        self.ends[self.count] = self.used as u16;
        self.count += 1;
    }

    // Where entry k begins, and entry k - 1 ends.
    fn start(&self, k: usize) -> usize
        requires { k ≤ length self.now.ends.now }
        ensures { (l : List Text) (n : ℕ) → Front n (ends_from 0 l) self.now.ends.now → k ≤ length l → result ≡ bytes_of (take k l) }
    {
        if k == 0 {
            0
        } else {
            usize::from(self.ends[k - 1])
        }
    }

    // Where entry k stands.
    pub fn place(&self, k: usize) -> Part
        requires { k < length self.now.ends.now }
        ensures { (l : List Text) (store : List ℕ) (count bytes : ℕ) → Entries l store self.now.ends.now count bytes → k < count
            → Placed l store k result.from result.to }
    {
        let from = self.start(k);
        let to = self.start(k + 1);
        Part { from, to }
    }

    // Entry k.
    pub fn get(&self, k: usize) -> &[u8]
        requires { (l : List Text) × ((Entries l self.now.bytes.now self.now.ends.now self.now.count self.now.used) × (k < self.now.count)) }
        ensures { (l : List Text) → Entries l self.now.bytes.now self.now.ends.now self.now.count self.now.used → result.now ≡ get_or l k [] }
    {
        let at = self.place(k);
        &self.bytes[at.from..at.to]
    }
}
