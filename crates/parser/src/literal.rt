// Literals: a value by the text of its type.
ghost use Rattle.std.specs.Prelude.{◌≡◌, ◌≤◌, length};
ghost use Rattle.grammar.specs.Limits.{most_text_bytes};
ghost use Rattle.parser.specs.Literals.{KindOf, PutsValue, Encloses};
ghost use Rattle.parser.specs.Demanglers.{Prints};

use crate::demangler::Demangler;
use crate::memory::given;
use grammar::refusal::Refusal;
use store::stack::Stack;

// How a literal is printed: as true or false, with a suffix, or with its type in front.
#[derive(Clone, Copy)]
pub enum Kind {
    Truth,
    Suffix(&'static [u8]),
    Cast,
}

// The suffixes of literals, by their types' texts.
const SUFFIXES: [(&[u8], &[u8]); 6] = [
    (b"int", b""),
    (b"long", b"l"),
    (b"unsigned int", b"u"),
    (b"unsigned long", b"ul"),
    (b"long long", b"ll"),
    (b"unsigned long long", b"ull"),
];

impl Kind {
    // By the text of its type.
    pub fn of(text: &[u8]) -> Kind
        ensures { KindOf text.now result }
    {
        if text == b"bool".as_slice() {
            return Kind::Truth;
        }
        match SUFFIXES.iter().find(|row| text == row.0) {
            Some(row) => Kind::Suffix(row.1),
            None => Kind::Cast,
        }
    }
}

// The value, with - for n in front.
pub fn put_value(stack: &mut Stack, value: &[u8])
    requires { length value.now ≤ most_text_bytes }
    ensures { PutsValue value.now stack.old stack.new }
{
    match value.strip_prefix(b"n") {
        Some(rest) => {
            stack.put(b"-");
            stack.put(rest);
        }
        None => stack.put(value),
    }
}

// The newest n bytes in parentheses: they are put again behind (, and the old ones go.
fn enclose(stack: &mut Stack, n: usize)
    requires { (n ≤ stack.old.top) × (n ≤ most_text_bytes) }
    ensures { Encloses n stack.old stack.new }
{
    stack.put(b"(");
    stack.again(n + 1, n);
    stack.cut(n, n + 1);
    stack.put(b")");
}

impl Demangler<'_> {
    // The newest n bytes are the type's text.
    pub fn literal(&mut self, n: usize, value: &[u8]) -> Result<usize, Refusal>
        requires { (n ≤ self.old.stack.top) × ((n ≤ most_text_bytes) × (length value.now ≤ most_text_bytes)) }
        ensures { Prints value.now n self.old self.new result }
    {
        let stack = &mut self.stack;
        match Kind::of(stack.newest(n)) {
            Kind::Truth => {
                let word: &[u8] = if value == b"1".as_slice() {
                    b"true"
                } else {
                    b"false"
                };
                stack.cut(n, 0);
                stack.put(word);
                Ok(word.len())
            }
            Kind::Suffix(word) => {
                stack.cut(n, 0);
                put_value(stack, value);
                stack.put(word);
                given(value.len() + word.len())
            }
            Kind::Cast => {
                enclose(stack, n);
                put_value(stack, value);
                given(n + 2 + value.len())
            }
        }
    }
}
