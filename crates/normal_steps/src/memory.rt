// What is written and kept, and what is found again.
ghost use Rattle.std.specs.Prelude.{[], ◌∷◌, ◌≡◌, ◌+◌, ◌-◌, ◌*◌, ◌≤◌, ◌<◌, length, get_or, set};
ghost use Rattle.std.proofs.Math.Option.{some};
ghost use Rattle.std.proofs.Math.ListN.{get_elem?};
ghost use Rattle.grammar.specs.Limits.{most_symbol_bytes};
ghost use Rattle.catalogue.specs.Spelling.{name_bytes};
ghost use Rattle.normal_nodes.specs.Nodes.{Notes, same_node, note_last_is, settled, pushed};
ghost use Rattle.normal_steps.specs.Limits.{most_note};
ghost use Rattle.normal_steps.specs.Parts.{part};
ghost use Rattle.normal_steps.specs.Seeks.{Sought};
ghost use Rattle.normal_steps.specs.Rows.{node_at, nodes_of, node_of, Within};
ghost use Rattle.normal_steps.specs.Chains.{bucket_of, Findable};
ghost use Rattle.normal_steps.specs.Carries.{Held, Ready, Tag, Numbered, Stretch, Room, KeptBut, Steps, Does, Puts, but_out, but_tables, but_notes, notes_node};

use crate::state::{Row, Writer};
use crate::write;
use grammar::part::Part;
use grammar::state::Parser;
use grammar::text;

// Two numbers of node n.
fn put_two(numbers: &mut [u16], n: usize, a: usize, b: usize)
    requires { (2 * n + 2 ≤ length numbers.old) × ((a < most_note) × (b < most_note)) }
    ensures { numbers.new ≡ set (set numbers.old (2 * n) a) (2 * n + 1) b }
{
    let at = 2 * n;
    numbers[at] = a as u16;
    numbers[at + 1] = b as u16;
}

// Node n is the newest of its bucket.
fn link(chains: &mut [u16], n: usize, head: usize)
    requires { (head < most_symbol_bytes) × ((n < most_symbol_bytes) × (length chains.old ≡ 2 * most_symbol_bytes)) }
    ensures { chains.new ≡ set (set chains.old (most_symbol_bytes + n) (get_or chains.old head 0)) head n }
{
    chains[Writer::MIDDLE + n] = chains[head];
    chains[head] = n as u16;
}

impl Writer<'_> {
    // A byte is written.
    pub fn put_byte(&mut self, c: u8)
        requires { self.old.state.out < length self.old.out.now }
        ensures { KeptBut but_out self.old self.new (Puts (c ∷ []) self.old self.new) }
    {
        let end = self.state.out;
        self.out[end] = c;
        self.state.out = end + 1;
    }

    // A part of the symbol is written.
    pub fn put_part(&mut self, p: Part)
        requires inside { Within self.old.s.now p }
        requires room { self.old.state.out + (p.to - p.from) ≤ length self.old.out.now }
        ensures { KeptBut but_out self.old self.new (Puts (part self.old.s.now p.from p.to) self.old self.new) }
    {
        let end = self.state.out;
        text::copy(self.out, end, &self.s[p.from..p.to]);
        self.state.out = end + (p.to - p.from);
    }

    // A part of the symbol is written as a source name.
    pub fn put_name(&mut self, p: Part)
        requires inside { Within self.old.s.now p }
        requires short { p.to - p.from ≤ most_symbol_bytes }
        requires room { self.old.state.out + length (name_bytes (part self.old.s.now p.from p.to)) ≤ length self.old.out.now }
        ensures { KeptBut but_out self.old self.new (Puts (name_bytes (part self.old.s.now p.from p.to)) self.old self.new) }
    {
        let end = self.state.out;
        self.state.out = write::write_name(self.out, end, &self.s[p.from..p.to]);
    }

    // The tag of the tree with the number d.
    pub fn tag_of(&self, d: usize) -> usize
        requires { Ready self.now }
        ensures { Tag self.now d result }
    {
        match d.checked_sub(Writer::LEAST) {
            Some(i) if i < self.state.nodes => usize::from(self.ends[2 * i]),
            _ => 0,
        }
    }

    // The number of entry i of the table.
    pub fn entry(&self, i: usize) -> usize
        requires { (i < self.now.state.table) × Ready self.now }
        ensures { (σ : Notes) → Held self.now σ → (get_elem? σ.table i ≡ some result) × Numbered self.now.state result }
    {
        usize::from(self.tables[i])
    }

    // Whether the newest entry of the table is d.
    pub fn newest(&self, d: usize) -> bool
        requires { Ready self.now }
        ensures { (σ : Notes) → Held self.now σ → result ≡ note_last_is d σ.table }
    {
        let n = self.state.table;
        n != 0 && d == usize::from(self.tables[n - 1])
    }

    // Where what has the number d is in the table, its reference takes the place of what was written from `from` on.
    pub fn settle(&mut self, d: usize, from: usize)
        requires { (Numbered self.old.state d) × ((Stretch from self.old.state) × Ready self.old) }
        ensures { KeptBut but_out self.old self.new (Does 0 0 5 from (settled d from) self.old self.new) }
    {
        let kept = usize::from(self.tables[Writer::MIDDLE + (d - Writer::LEAST)]);
        if let Some(i) = kept.checked_sub(1) {
            self.state.out = write::write_reference(self.out, from, i);
        }
    }

    // What has the number d is the newest entry of the table.
    pub fn push(&mut self, d: usize)
        requires { (Numbered self.old.state d) × ((Room 0 1 self.old.state) × Ready self.old) }
        ensures { KeptBut but_tables self.old self.new (Does 0 1 0 self.old.state.out (pushed d) self.old self.new) }
    {
        let n = self.state.table;
        let m = self.state.firsts;
        let place = Writer::MIDDLE + (d - Writer::LEAST);
        let kept = self.tables[place];
        self.tables[n] = d as u16;
        self.state.table = n + 1;
        if kept == 0 {
            self.tables[place] = (m + 1) as u16;
            self.state.firsts = m + 1;
        }
    }

    // The bucket of a node: nodes in different buckets are different.
    fn bucket(&self, x: Row) -> usize
        requires { ((x.tag < most_note) × (x.of < most_note)) × Within self.now.s.now x.word }
        ensures { result ≡ bucket_of (node_of self.now.s.now x) }
    {
        let mut sum = x.of % Parser::SYMBOL;
        for c in &self.s[x.word.from..x.word.to] {
            sum = (9 * sum + usize::from(*c)) % Parser::SYMBOL;
        }
        // the tag last, so that a class and a literal never meet
        (8 * sum + x.tag) % Parser::SYMBOL
    }

    // Whether node i is that one.
    #[tactic(auto, using(crate::specs::Laws::Tests::same_is), unfolding(normal_nodes::specs::Nodes::same_node))]
    fn same_row(&self, i: usize, x: Row) -> bool
        requires { ((2 * i + 2 ≤ length self.now.ends.now) × (2 * i + 2 ≤ length self.now.words.now))
            × (((get_or self.now.words.now (2 * i) 0 ≤ get_or self.now.words.now (2 * i + 1) 0)
            × (get_or self.now.words.now (2 * i + 1) 0 ≤ length self.now.s.now)) × Within self.now.s.now x.word) }
        ensures { result ≡ same_node (node_of self.now.s.now x) (node_at self.now.s.now self.now.ends.now self.now.words.now i) }
    {
        let at = 2 * i;
        let (from, to) = (usize::from(self.words[at]), usize::from(self.words[at + 1]));
        x.tag == usize::from(self.ends[at])
            && x.of == usize::from(self.ends[at + 1])
            && self.s[x.word.from..x.word.to] == self.s[from..to]
    }

    // The place of a node: along the chain of its bucket, which falls. What `chains` had before may stand at its end and lead to other nodes,
    // which costs time alone.
    fn node_place(&self, x: Row, head: usize) -> Option<usize>
        requires { (Findable self.now.s.now self.now.ends.now self.now.words.now self.now.chains.now self.now.state.nodes)
            × ((Within self.now.s.now x.word) × (head ≡ bucket_of (node_of self.now.s.now x))) }
        ensures { Sought (same_node (node_of self.now.s.now x)) (nodes_of self.now.s.now self.now.ends.now self.now.words.now self.now.state.nodes)
            self.now.state.nodes result }
    {
        let mut bound = self.state.nodes;
        let mut i = usize::from(self.chains[head]);
        while i < bound {
            if self.same_row(i, x) {
                return Some(i);
            }
            bound = i;
            i = usize::from(self.chains[Writer::MIDDLE + i]);
        }
        None
    }

    // The number of a node, which may be new.
    pub fn note(&mut self, x: Row) -> usize
        requires { ((x.tag < most_note) × (x.of < most_note)) × ((Within self.old.s.now x.word) × ((Room 1 0 self.old.state) × Ready self.old)) }
        ensures { KeptBut but_notes self.old self.new (Steps 1 0 0 self.old.state.out (notes_node (node_of self.old.s.now x)) self.old self.new (Some result)) }
    {
        let head = self.bucket(x);
        if let Some(i) = self.node_place(x, head) {
            return Writer::LEAST + i;
        }
        let n = self.state.nodes;
        put_two(self.ends, n, x.tag, x.of);
        put_two(self.words, n, x.word.from, x.word.to);
        self.tables[Writer::MIDDLE + n] = 0;
        link(self.chains, n, head);
        self.state.nodes = n + 1;
        Writer::LEAST + n
    }
}
