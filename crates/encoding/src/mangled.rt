// <encoding>: special names, and GTt and GV with what is behind them read anew.
ghost use Rattle.std.specs.Prelude.{true, false, ◌≡◌, ◌≤◌, length};
ghost use Rattle.grammar.specs.Text.{b, starts};
ghost use Rattle.grammar.specs.Limits.{most_text_bytes};
ghost use Rattle.grammar.specs.Reader.{start};
ghost use Rattle.grammar.specs.Grammar.{reading, ⟨encoding⟩};
ghost use Rattle.encoding.specs.Encodings.{Labels, Begun, Encoded};

use crate::thunks;
use grammar::codes;
use grammar::refusal::Refusal;
use parser::demangler::Demangler;
use parser::memory::{given, sum};
use reader::cycle::{name, ty};

// <encoding>; what GTt and GV leave unread is dropped
pub fn mangled_name(d: &mut Demangler) -> Result<usize, Refusal>
    requires { (length d.old.s.now ≤ most_text_bytes) × Begun d.old }
    ensures { Encoded d.old d.new result (reading ⟨encoding⟩ (start d.old.s.now)) }
{
    let whole = d.s;
    let mut n: usize = 0;
    while let Some(rest) = d.s.strip_prefix(b"GTt") {
        d.s = rest;
        d.stack.put(b"transaction clone for ");
        n = sum(n, 22);
    }
    let alone = d.s.len() == whole.len();
    let m = encoding(d);
    d.s = whole;
    let m = m?;
    if alone {
        return Ok(m);
    }
    d.state.at = whole.len();
    given(sum(n, m))
}

// an encoding that does not begin with GTt
fn encoding(d: &mut Demangler) -> Result<usize, Refusal>
    requires { (length d.old.s.now ≤ most_text_bytes) × ((starts d.old.s.now (b "GTt") ≡ false) × Begun d.old) }
    ensures { Encoded d.old d.new result (reading ⟨encoding⟩ (start d.old.s.now)) }
{
    if d.s.starts_with(b"GV") {
        return guard_variable(d);
    }
    let Some(word) = label(d.s) else {
        return thunks::thunk_or_function(d);
    };
    d.state.at = 2;
    d.stack.put(word);
    let n = ty(d)?;
    given(n + word.len())
}

// What TV, TT, TI and TS print.
fn label(s: &[u8]) -> Option<&'static [u8]>
    ensures { Labels s.now result }
{
    match s {
        [b'T', c, ..] => codes::label(*c),
        _ => None,
    }
}

// GV <object name>
fn guard_variable(d: &mut Demangler) -> Result<usize, Refusal>
    requires { (length d.old.s.now ≤ most_text_bytes) × ((starts d.old.s.now (b "GV") ≡ true) × Begun d.old) }
    ensures { Encoded d.old d.new result (reading ⟨encoding⟩ (start d.old.s.now)) }
{
    let whole = d.s;
    d.s = &whole[2..];
    d.stack.put(b"guard variable for ");
    let n = name(d);
    d.s = whole;
    let n = n?;
    d.state.at = whole.len();
    given(n + 19)
}
