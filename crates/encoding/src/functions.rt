// <encoding>: a function or data, with parameters, return type and qualifiers.
ghost use Rattle.std.specs.Prelude.{◌≡◌, ◌+◌, ◌≤◌, min, length, drop};
ghost use Rattle.grammar.specs.Limits.{most_text_bytes, most_entry_bytes, most_length};
ghost use Rattle.grammar.specs.Grammar.{reading, ended, function_or_data};
ghost use Rattle.grammar.specs.States.{Within};
ghost use Rattle.parser.specs.Holds.{keep};
ghost use Rattle.parser.specs.Demanglers.{Prepared, Parses};
ghost use Rattle.encoding.specs.Encodings.{Qualified, LoneVoid, Going, with_parameters, with_returned};

use grammar::codes;
use grammar::part::Part;
use grammar::refusal::Refusal;
use grammar::state::Parser;
use parser::demangler::Demangler;
use parser::memory::{given, sum};
use reader::cycle::{items, name, ty};
use reader::lists::{Joined, Kind};

// <function name> <bare-function-type> | <data name>
pub fn function_or_data(d: &mut Demangler) -> Result<usize, Refusal>
    requires { Prepared d.old }
    ensures { Parses (function_or_data reading) (keep d.old.state.depth) (d.old.state.at + 1) d.old d.new result }
{
    let n = name(d)?;
    let cv = d.state.cv;
    d.state.cv = Part { from: 0, to: 0 };
    if ended(d.s, d.state) {
        return qualified(d, n, cv);
    }
    if d.state.templated {
        return template_function(d, n, cv);
    }
    function(d, n, cv)
}

// Whether the name and its parameters end here.
pub fn ended(s: &[u8], state: Parser) -> bool
    ensures { result ≡ ended (drop state.at s.now) }
{
    state.peek(s).is_none_or(|c| c == b'.')
}

// The same of a demangler.
pub fn ended_here(d: &Demangler) -> bool
    ensures { result ≡ ended (drop d.now.state.at d.now.s.now) }
{
    ended(d.s, d.state)
}

// The type returned goes before a name of n bytes, and the parameters behind it.
fn template_function(d: &mut Demangler, n: usize, cv: Part) -> Result<usize, Refusal>
    requires { (Prepared d.old) × ((n ≤ most_text_bytes) × ((n ≤ d.old.stack.top) × Within d.old.s.now cv)) }
    ensures { Going with_returned d.old d.new n cv result }
{
    let r = ty(d)?;
    d.turned(n, r);
    function(d, r + 1 + n, cv)
}

// The parameters behind a name of n bytes.
fn function(d: &mut Demangler, n: usize, cv: Part) -> Result<usize, Refusal>
    requires { (Prepared d.old) × ((n ≤ most_text_bytes + 1 + most_text_bytes) × Within d.old.s.now cv) }
    ensures { Going with_parameters d.old d.new n cv result }
{
    d.stack.put(b"(");
    let list = items(d, Kind::Parameters)?;
    if lone_void(d, list) {
        d.stack.cut(4, 0);
        d.stack.put(b")");
        return qualified(d, n + 2, cv);
    }
    let m = given(list.n)?;
    d.stack.put(b")");
    qualified(d, n + m + 2, cv)
}

// Whether the parameters are a void alone at the end of the symbol.
fn lone_void(d: &Demangler, list: Joined) -> bool
    requires { (d.now.state.at ≤ length d.now.s.now) × (min list.n most_entry_bytes ≤ d.now.stack.top) }
    ensures { LoneVoid d.now list result }
{
    d.state.at == d.s.len() && list.lone_void(&d.stack)
}

// A text of n bytes is returned with what the qualifiers print.
fn qualified(d: &mut Demangler, n: usize, cv: Part) -> Result<usize, Refusal>
    requires { (n ≤ most_length) × Within d.old.s.now cv }
    ensures { Qualified d.old d.new n cv result }
{
    let mut size = n;
    for c in &d.s[cv.from..cv.to] {
        if let Some(word) = codes::qualifier(*c) {
            d.stack.put(word);
            size = sum(size, word.len());
        }
    }
    given(size)
}
