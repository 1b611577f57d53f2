// References behind S, and literals behind L.
ghost use Rattle.std.specs.Prelude.{◌≡◌, true};
ghost use Rattle.grammar.specs.Text.{digit};
ghost use Rattle.catalogue.specs.Bytes.{all};
ghost use Rattle.catalogue.specs.Class.{leading_zero, numeral as numeral_ok};
ghost use Rattle.normal_walk.specs.Walk.{canonical};
ghost use Rattle.normal_steps.specs.Answers.{RefIs, ValueIs, LitIs, valid_by};

use crate::words;
use grammar::{numbers, text};

// So large an index is past every table.
const MOST_INDEX: u64 = 65536;

// The index, 65,536 for all that are larger, and the place behind `_`.
#[derive(Clone, Copy, Debug, PartialEq, Eq)]
pub struct Referred {
    pub index: usize,
    pub end: usize,
}

// The place behind E, the byte of the kind, whether there is an n, and the place of the digits.
#[derive(Clone, Copy, Debug, PartialEq, Eq)]
pub struct Valued {
    pub end: usize,
    pub kind: u8,
    pub minus: bool,
    pub from: usize,
}

fn leading_zero(digits: &[u8]) -> bool
    ensures { result ≡ leading_zero digits.now }
{
    matches!(digits, [b'0', _, ..])
}

// Digits and capitals without leading zero.
fn canonical(digits: &[u8]) -> bool
    ensures { result ≡ canonical digits.now }
{
    digits.iter().all(|c| words::capital_byte(*c)) && !leading_zero(digits)
}

// [<seq-id>] _, behind S
#[tactic(auto, using(grammar::specs::Laws::Places::starts_inside))]
pub fn reference(s: &[u8], at: usize) -> Option<Referred>
    ensures { RefIs s.now at result }
{
    let number = numbers::digits::<36>(s, at);
    let end = number.next;
    if !text::here(s, end, b'_') || !canonical(&s[at..end]) {
        return None;
    }
    let index = if end == at {
        0
    } else {
        number.value.saturating_add(1).min(MOST_INDEX) as usize
    };
    Some(Referred {
        index,
        end: end + 1,
    })
}

// Decimal without leading zero, of digits.
fn numeral(digits: &[u8]) -> bool
    requires { all (digit 10) digits.now ≡ true }
    ensures { result ≡ numeral_ok digits.now }
{
    !digits.is_empty() && !leading_zero(digits)
}

// Whether the digits are a value of the kind.
#[tactic(auto, using(crate::specs::Laws::Leaves::values))]
fn value_ok(kind: u8, minus: bool, digits: &[u8]) -> bool
    requires { all (digit 10) digits.now ≡ true }
    ensures { result ≡ valid_by kind minus digits.now }
{
    match kind {
        b'b' => !minus && matches!(digits, [b'0' | b'1']),
        b'i' | b'l' => numeral(digits) && !(minus && matches!(digits, [b'0'])),
        b'j' | b'm' => !minus && numeral(digits),
        _ => false,
    }
}

// <digits> E
#[tactic(auto, using(grammar::specs::Laws::Places::starts_inside))]
fn value(s: &[u8], kind: u8, minus: bool, from: usize) -> Option<Valued>
    ensures { ValueIs s.now kind minus from result }
{
    let to = numbers::digits::<10>(s, from).next;
    if !text::here(s, to, b'E') || !value_ok(kind, minus, &s[from..to]) {
        return None;
    }
    Some(Valued {
        end: to + 1,
        kind,
        minus,
        from,
    })
}

// One of b i j l m, [n] <digits> E, behind L
pub fn literal(s: &[u8], at: usize) -> Option<Valued>
    ensures { LitIs s.now at result }
{
    let kind = *s.get(at)?;
    let minus = text::here(s, at + 1, b'n');
    let from = if minus { at + 2 } else { at + 1 };
    value(s, kind, minus, from)
}
