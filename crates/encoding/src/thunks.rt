// <special-name> ::= T <call-offset> <base encoding>: thunks.
ghost use Rattle.std.specs.Prelude.{◌≤◌, length};
ghost use Rattle.grammar.specs.Limits.{most_text_bytes};
ghost use Rattle.grammar.specs.Reader.{start, cases};
ghost use Rattle.grammar.specs.Grammar.{reading, offset, thunks, function_or_data};
ghost use Rattle.encoding.specs.Encodings.{Begun, Encoded, StepsOver};

use crate::functions::function_or_data;
use grammar::numbers::digits;
use grammar::refusal::Refusal;
use parser::demangler::Demangler;
use parser::memory::given;

// a thunk, or a function or data
pub fn thunk_or_function(d: &mut Demangler) -> Result<usize, Refusal>
    requires { (length d.old.s.now ≤ most_text_bytes) × Begun d.old }
    ensures { Encoded d.old d.new result (cases (thunks reading) (function_or_data reading) (start d.old.s.now)) }
{
    let label: &[u8] = match d.s {
        [b'T', b'h', ..] => {
            d.state.at = 2;
            offset(d)?;
            b"non-virtual thunk to "
        }
        [b'T', b'v', ..] => {
            d.state.at = 2;
            offset(d)?;
            offset(d)?;
            b"virtual thunk to "
        }
        _ => return function_or_data(d),
    };
    d.stack.put(label);
    let n = function_or_data(d)?;
    given(n + label.len())
}

// an offset, with n in front for minus, and its _
fn offset(d: &mut Demangler) -> Result<(), Refusal>
    ensures { StepsOver offset d.old d.new result }
{
    let _ = d.eat(b'n');
    let digits = digits::<10>(d.s, d.state.at);
    if digits.next == d.state.at {
        return Err(Refusal::NoRule);
    }
    d.state.at = digits.next;
    d.need(b'_')
}
