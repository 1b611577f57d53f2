// A whole symbol, read, and its normal symbol written.
ghost use Rattle.std.specs.Prelude.{◌≡◌, ◌≤◌, length};
ghost use Rattle.normal_nodes.specs.Nodes.{note_symbol};
ghost use Rattle.normal_steps.specs.Carries.{Ready, Kept, KeptBut, but_out};
ghost use Rattle.normal_writer.specs.Writes.{Lent, Begins, Plain, Scoped, Functions, Types, Writes};

use crate::cycle;
use grammar::text;
use normal_steps::state::{State, Writer};
use normal_steps::{steps, words};

// "_Z", "_ZN" or "_ZNK" is written, and taken.
fn begin(w: &mut Writer, word: &[u8])
    requires { (length word.now ≤ 4) × Lent w.old }
    ensures { KeptBut but_out w.old w.new (Begins word.now w.new) }
{
    let n = word.len();
    text::copy(w.out, 0, word);
    w.state = State::begun(n, n);
}

// <source-name>: never with a K
fn plain(w: &mut Writer) -> Option<bool>
    requires { Lent w.old }
    ensures { KeptBut but_out w.old w.new (Plain w.old.s.now w.new result) }
{
    let word = words::source_name(w.s, 2)?;
    begin(w, b"_Z");
    w.state.at = word.to;
    w.put_name(word);
    Some(false)
}

// <parts> E behind N or NK, without arguments at the end
fn scoped(w: &mut Writer, word: &[u8], constant: bool) -> Option<bool>
    requires { ((2 ≤ length word.now) × ((length word.now ≤ 4) × (length word.now ≤ length w.old.s.now))) × Lent w.old }
    ensures { Kept w.old w.new (Scoped word.now constant w.old.s.now w.new result) }
{
    begin(w, word);
    let u = cycle::parts(w)?;
    if !steps::bare(w.tag_of(u)) {
        return None;
    }
    w.close();
    Some(constant)
}

// <name> ::= <source-name> | N [K] <parts> E: whether it has a K
fn function(w: &mut Writer) -> Option<bool>
    requires { Lent w.old }
    ensures { Kept w.old w.new (Functions w.old.s.now w.new result) }
{
    if !text::here(w.s, 2, b'N') {
        return plain(w);
    }
    if text::here(w.s, 3, b'K') {
        return scoped(w, b"_ZNK", true);
    }
    scoped(w, b"_ZN", false)
}

// <type>+ to the end
fn types(w: &mut Writer) -> Option<()>
    requires { Ready w.old }
    ensures { Kept w.old w.new (Types w.old w.new result) }
{
    while w.state.at < w.s.len() {
        let t = cycle::ty(w)?;
        if w.tag_of(t) == usize::from(b'L') {
            return None;
        }
    }
    Some(())
}

// <encoding> ::= <name> [<type>+]; at most 1,024 arguments. The normal symbol is what is written, or the symbol is outside the class.
pub fn write_symbol(w: &mut Writer) -> Option<()>
    requires { Lent w.old }
    ensures { Kept w.old w.new (Writes w.new result (note_symbol w.old.s.now)) }
{
    if !text::starts_with(w.s, 0, b"_Z") {
        return None;
    }
    let constant = function(w)?;
    if constant && w.s.len() <= w.state.at {
        return None;
    }
    types(w)?;
    if catalogue::ARGUMENTS < w.state.args {
        return None;
    }
    Some(())
}
