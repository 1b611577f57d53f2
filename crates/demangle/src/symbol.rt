// What is told of a symbol before it is read, and its name written.
ghost use Rattle.std.specs.Prelude.{◌≡◌, ◌++◌, ◌≤◌, length, drop};
ghost use Rattle.grammar.specs.Names.{without_slots};
ghost use Rattle.store.specs.Stack.{slots_in};
ghost use Rattle.demangle.specs.Symbols.{Fronts};

use grammar::refusal::Refusal;
use grammar::state::Parser;

// The place behind _Z or __Z, or why there is none.
pub fn behind_front(s: &[u8]) -> Result<usize, Refusal>
    ensures { Fronts s.now result }
{
    if Parser::SYMBOL < s.len() {
        return Err(Refusal::LongSymbol);
    }
    if !s.is_ascii() {
        return Err(Refusal::HighByte);
    }
    if s.starts_with(b"_Z") {
        return Ok(2);
    }
    if s.starts_with(b"__Z") {
        return Ok(3);
    }
    Err(Refusal::NoFront)
}

// The text into the front of `out`. With copy_from_slice LLVM would no longer see that `out` is only written, and would clear the array of
// 16,384 bytes that the reading for normal symbols lends for the name.
fn copy(out: &mut [u8], text: &[u8])
    requires { length text.now ≤ length out.old }
    ensures { out.new ≡ text.now ++ drop (length text.now) out.old }
{
    for (i, x) in text.iter().enumerate() {
        out[i] = *x;
    }
}

// The text without its slots, into the front of `out`.
pub fn write_name(out: &mut [u8], text: &[u8])
    requires { length (without_slots text.now) ≤ length out.old }
    ensures { out.new ≡ without_slots text.now ++ drop (length (without_slots text.now)) out.old }
{
    for (at, c) in text.iter().filter(|c| **c != 1).enumerate() {
        out[at] = *c;
    }
}

// The same, where the slots of the text are counted. Almost no name has one, and its bytes are copied many at once.
pub fn write_counted(out: &mut [u8], text: &[u8], slots: usize)
    requires { (slots ≡ slots_in text.now) × (length (without_slots text.now) ≤ length out.old) }
    ensures { out.new ≡ without_slots text.now ++ drop (length (without_slots text.now)) out.old }
{
    if slots == 0 {
        copy(out, text);
    } else {
        write_name(out, text);
    }
}
