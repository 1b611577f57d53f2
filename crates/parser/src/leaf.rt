// Bytes that are passed over, and the class in a part of a nested name.
ghost use Rattle.std.specs.Prelude.{◌≡◌, ◌+◌, ◌≤◌, length, drop};
ghost use Rattle.grammar.specs.Text.{b, holds, run, digit};
ghost use Rattle.grammar.specs.Limits.{most_text_bytes};
ghost use Rattle.grammar.specs.Grammar.{digit_ahead, structor_ahead, std_ahead, open_after};
ghost use Rattle.parser.specs.Leaves.{qualifies, Skips, Classed};

use crate::demangler::Demangler;
use grammar::codes;
use grammar::part::Part;
use grammar::text::before;

fn qualifier(c: u8) -> bool
    ensures { result ≡ qualifies c }
{
    codes::qualifier(c).is_some()
}

// How many expressions are open behind a byte: X opens one, E closes one.
fn opened(c: u8, d: usize) -> usize
    requires { (1 ≤ d) × (d ≤ most_text_bytes) }
    ensures { result ≡ open_after c d }
{
    match c {
        b'X' => d + 1,
        b'E' => d - 1,
        _ => d,
    }
}

fn c_or_d(c: u8) -> bool
    ensures { result ≡ holds c (b "CD") }
{
    matches!(c, b'C' | b'D')
}

fn digit(c: u8) -> bool
    ensures { result ≡ digit 10 c }
{
    c.is_ascii_digit()
}

// The place behind the qualifiers of a nested name.
pub fn qualifiers(s: &[u8], at: usize) -> usize
    requires { at ≤ length s.now }
    ensures { (result ≡ at + length (run qualifies (drop at s.now))) × (result ≤ length s.now) }
{
    let rest = &s[at..];
    at + rest
        .iter()
        .position(|c| !qualifier(*c))
        .unwrap_or(rest.len())
}

// The place behind the E that closes an expression.
pub fn expression(s: &[u8], at: usize) -> Option<usize>
    requires { (at ≤ length s.now) × (length s.now ≤ most_text_bytes) }
    ensures { Skips s.now at result }
{
    let mut d: usize = 1;
    for end in at..s.len() {
        d = opened(s[end], d);
        if d == 0 {
            return Some(end + 1);
        }
    }
    None
}

// A digit.
pub fn digit_ahead(s: &[u8], at: usize) -> bool
    ensures { result ≡ digit_ahead (drop at s.now) }
{
    at < s.len() && digit(s[at])
}

// C or D, and a digit or C.
pub fn structor(s: &[u8], at: usize) -> bool
    requires { at ≤ length s.now }
    ensures { result ≡ structor_ahead (drop at s.now) }
{
    match &s[at..] {
        [b'C' | b'D', y, ..] => digit(*y) || *y == b'C',
        _ => false,
    }
}

// St, and a digit, C or D.
pub fn std_ahead(s: &[u8], at: usize) -> bool
    requires { at ≤ length s.now }
    ensures { result ≡ std_ahead (drop at s.now) }
{
    match &s[at..] {
        [b'S', b't', z, ..] => digit(*z) || c_or_d(*z),
        _ => false,
    }
}

// The same at the place of a reading.
impl Demangler<'_> {
    pub fn qualifiers(&self) -> usize
        requires { self.now.state.at ≤ length self.now.s.now }
        ensures { (result ≡ self.now.state.at + length (run qualifies (drop self.now.state.at self.now.s.now))) × (result ≤ length self.now.s.now) }
    {
        qualifiers(self.s, self.state.at)
    }

    pub fn expression(&self) -> Option<usize>
        requires { (self.now.state.at ≤ length self.now.s.now) × (length self.now.s.now ≤ most_text_bytes) }
        ensures { Skips self.now.s.now self.now.state.at result }
    {
        expression(self.s, self.state.at)
    }

    pub fn digit_ahead(&self) -> bool
        ensures { result ≡ digit_ahead (drop self.now.state.at self.now.s.now) }
    {
        digit_ahead(self.s, self.state.at)
    }

    pub fn structor_ahead(&self) -> bool
        requires { self.now.state.at ≤ length self.now.s.now }
        ensures { result ≡ structor_ahead (drop self.now.state.at self.now.s.now) }
    {
        structor(self.s, self.state.at)
    }

    pub fn std_ahead(&self) -> bool
        requires { self.now.state.at ≤ length self.now.s.now }
        ensures { result ≡ std_ahead (drop self.now.state.at self.now.s.now) }
    {
        std_ahead(self.s, self.state.at)
    }
}

// The class that a constructor is named after, in the text of a part: what stands before the first <, and of that behind the last ::.
pub fn class_of(text: &[u8]) -> Part
    ensures { Classed text.now result }
{
    let to = before(text, 0, b'<');
    let name = &text[..to];
    match name.windows(2).rposition(|w| w == b"::".as_slice()) {
        Some(i) => Part { from: i + 2, to },
        None => Part { from: 0, to },
    }
}
