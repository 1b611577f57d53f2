// Identifiers, and source names: an identifier behind its length.
ghost use Rattle.std.specs.Prelude.{◌≡◌};
ghost use Rattle.catalogue.specs.Class.{word_byte, reserved, listed, name_ok};
ghost use Rattle.normal_walk.specs.Walk.{capital};
ghost use Rattle.normal_steps.specs.Answers.{NameIs};

use grammar::part::Part;
use grammar::{numbers, text};

const RESERVED: &[&[u8]] = &[
    b"void",
    b"wchar_t",
    b"bool",
    b"char",
    b"short",
    b"int",
    b"long",
    b"__int128",
    b"float",
    b"double",
    b"__float128",
    b"true",
    b"false",
];

// No reserved word is longer.
const LONGEST: usize = 10;

// A letter, a digit or `_`.
#[tactic(auto, using(crate::specs::Laws::Tests::ranges))]
fn word_byte(c: u8) -> bool
    ensures { result ≡ word_byte c }
{
    matches!(c, b'a'..=b'z' | b'A'..=b'Z' | b'0'..=b'9' | b'_')
}

// A digit or a capital.
pub fn capital_byte(c: u8) -> bool
    ensures { result ≡ capital c }
{
    matches!(c, b'0'..=b'9' | b'A'..=b'Z')
}

fn is_reserved(word: &[u8]) -> bool
    ensures { result ≡ listed word.now reserved }
{
    word.len() <= LONGEST && RESERVED.iter().any(|w| word == *w)
}

// Whether a word may be a source name.
fn is_name(word: &[u8]) -> bool
    ensures { result ≡ name_ok word.now }
{
    match word {
        [] | [b'0'..=b'9', ..] => false,
        _ => word.iter().all(|c| word_byte(*c)) && !is_reserved(word),
    }
}

// <source-name> ::= <number> <identifier>, the number without leading zero
pub fn source_name(s: &[u8], at: usize) -> Option<Part>
    ensures { NameIs s.now at result }
{
    if text::here(s, at, b'0') {
        return None;
    }
    let length = numbers::digits::<10>(s, at);
    let from = length.next;
    let to = from.checked_add(length.value as usize)?;
    if s.len() < to || !is_name(&s[from..to]) {
        return None;
    }
    Some(Part { from, to })
}
