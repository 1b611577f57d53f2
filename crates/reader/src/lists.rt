// Lists of texts, and the parts of a nested name.
ghost use Rattle.std.specs.Prelude.{◌≡◌, ◌+◌, ◌-◌, ◌*◌, ◌<◌, ◌≤◌, min, length, slice_set};
ghost use Rattle.grammar.specs.Limits.{most_text_bytes, most_entry_bytes, most_length};
ghost use Rattle.parser.specs.Demanglers.{Prepared};
ghost use Rattle.reader.specs.Funcs.{FuncEnds};
ghost use Rattle.reader.specs.Lists.{stops_at, Separates, listed_by, longer_of, opens_pack, last_size, Structors, PreparedFor, PutsBefore, VoidAlone};

use grammar::refusal::Refusal;
use grammar::state::Parser;
use parser::demangler::Demangler;
use parser::leaf;
use parser::memory::sum;
use store::stack::Stack;

// What a list is made of, and where it stops.
#[derive(Clone, Copy)]
pub enum Kind {
    // types up to the end or a dot
    Parameters,
    // types up to an E or the end
    Types,
    // template arguments, each of which is pushed, up to an E or the end
    Arguments,
}

// The texts of a list with ", " between them: so many bytes, and so many texts.
#[derive(Clone, Copy)]
pub struct Joined {
    pub n: usize,
    pub count: usize,
}

// The parts of a nested name so far: all of them, and the last.
#[derive(Clone, Copy)]
pub struct Parts {
    pub n: usize,
    pub last: usize,
    pub count: usize,
    pub structor: bool,
}

pub fn stops(kind: Kind, c: u8) -> bool
    ensures { result ≡ stops_at kind c }
{
    match kind {
        Kind::Parameters => c == b'.',
        Kind::Types | Kind::Arguments => c == b'E',
    }
}

// How many bytes stand between the texts of a list and one text more.
fn between(count: usize) -> usize
    ensures { result ≡ 2 * min count 1 }
{
    if count == 0 { 0 } else { 2 }
}

impl Joined {
    // The list with one text of m bytes more.
    pub fn longer(self, m: usize) -> Self
        requires { (m + 2 ≤ most_length) × ((self.n ≤ most_length) × (self.count ≤ most_length)) }
        ensures { result ≡ listed_by self m }
    {
        Joined {
            n: sum(self.n, m + between(self.count)),
            count: self.count + 1,
        }
    }

    // Whether a void stands alone in it: the list is the newest text on the stack.
    pub fn lone_void(self, stack: &Stack) -> bool
        requires { min self.n most_entry_bytes ≤ stack.now.top }
        ensures { VoidAlone self stack.now result }
    {
        self.count == 1 && self.n == 4 && stack.newest(4) == b"void".as_slice()
    }
}

impl Parts {
    // "::" behind the parts so far, if there are any.
    pub fn separate(self, stack: &mut Stack)
        ensures same { stack.new.bytes.ghost_name ≡ stack.old.bytes.ghost_name }
        ensures left { Separates self stack.old stack.new }
    {
        if 0 < self.count {
            stack.put(b"::");
        }
    }

    // The parts with one of m bytes more.
    pub fn longer(self, m: usize) -> Self
        requires { (m + 2 ≤ most_length) × (self.n ≤ most_length) }
        ensures { result ≡ longer_of self m }
    {
        Parts {
            n: sum(self.n, m + between(self.count)),
            last: m,
            count: 1,
            structor: self.structor,
        }
    }
}

// ", " behind the texts so far, if there are any: n is their number, or their bytes with two more for each of them.
pub fn comma(stack: &mut Stack, n: usize)
    ensures same { stack.new.bytes.ghost_name ≡ stack.old.bytes.ghost_name }
    ensures left { PutsBefore n stack.old stack.new }
{
    if 0 < n {
        stack.put(b", ");
    }
}

// How many packs inside one another are read in one loop.
const PACKS: usize = 64;

// The packs that are open around the innermost, which are the first `level` of `sizes`, the outermost first: for each, the
// bytes of its texts so far, with two more for each text.
#[derive(Drop)]
pub struct Packs {
    pub sizes: [usize; PACKS],
    pub level: usize,
    pub ghost room: { length sizes ≡ 64 },
    pub ghost deep: { level ≤ 64 },
}

impl Packs {
    pub fn none() -> Self
        ensures { result.level ≡ 0 }
    {
        Packs {
            sizes: [0; PACKS],
            level: 0,
        }
    }

    // Whether c opens one more.
    pub fn opens(&self, c: u8) -> bool
        ensures { result ≡ opens_pack self.now.level c }
    {
        c == b'J' && self.level < PACKS
    }

    // One of n bytes is around the innermost.
    pub fn push(&mut self, n: usize)
        requires { self.old.level < 64 }
        ensures { (self.new.level ≡ self.old.level + 1) × (self.new.sizes ≡ slice_set self.old.sizes self.old.level n) }
    {
        self.sizes[self.level] = n;
        self.level += 1;
    }

    // The innermost of them ends: its bytes, if there is one.
    pub fn pop(&mut self) -> Option<usize>
        ensures { (self.new.level ≡ self.old.level - 1) × ((self.new.sizes ≡ self.old.sizes) × (result ≡ last_size self.old.sizes self.old.level)) }
    {
        if self.level == 0 {
            return None;
        }
        self.level -= 1;
        Some(self.sizes[self.level])
    }
}

// <ctor-dtor-name>, at C or D: the class again behind the parts so far. Of parts that are too long to be an entry, or
// become so, no more is asked than that.
pub fn ctor_dtor(d: &mut Demangler, parts: Parts, c: u8) -> Parts
    requires { PreparedFor parts d.old }
    ensures { Structors c d.old d.new parts result }
{
    d.state.at += 2;
    let n = parts.n;
    if Parser::BYTES < n {
        return Parts {
            n,
            last: 0,
            count: 1,
            structor: true,
        };
    }
    let class = leaf::class_of(d.stack.newest(parts.last));
    let m = (class.to - class.from).min(Parser::TEXT);
    let back = parts.last - class.from;
    let tilde: &[u8] = if c == b'D' { b"~" } else { b"" };
    let more = parts.longer(tilde.len() + m);
    parts.separate(&mut d.stack);
    d.stack.put(tilde);
    d.stack.again(back + (more.n - n - m), m);
    Parts {
        structor: true,
        ..more
    }
}

// The end of a function type, behind its E: the type returned, of r bytes, and the parameters are on the stack. A lone void
// prints nothing.
pub fn func_end(d: &mut Demangler, r: usize, list: Joined) -> Result<usize, Refusal>
    requires { (Prepared d.old) × ((r ≤ most_text_bytes) × ((list.n ≤ most_length) × (min (r + (5 + list.n)) most_entry_bytes ≤ d.old.stack.top))) }
    ensures { FuncEnds d.old d.new r list.n list.count result }
{
    if list.lone_void(&d.stack) {
        d.stack.cut(4, 0);
        d.stack.put(b")");
        return d.recorded(r + 6);
    }
    d.stack.put(b")");
    d.recorded(sum(r + 6, list.n))
}
