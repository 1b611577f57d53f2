// The reading for names.
ghost use Rattle.std.specs.Prelude.{◌≤◌, length, drop};
ghost use Rattle.grammar.specs.Limits.{most_symbol_bytes, most_text_bytes, least_ends};
ghost use Rattle.grammar.specs.Names.{answer, mangled_name, within};
ghost use Rattle.parser.specs.Demanglers.{Least};
ghost use Rattle.answer.specs.Told.{lent, Tells, Long};
ghost use Rattle.answer.specs.Lent.{SameWork, slices_of};
ghost use Rattle.demangle.specs.Printed.{PrintsName};

use crate::symbol;
use answer::work;
use answer::work::Work;
use encoding::functions::ended_here;
use encoding::mangled::mangled_name;
use grammar::refusal::Refusal;
use parser::demangler::Demangler;

// The name of the symbol, into `out`. Work slices of any lengths and contents; what they hold at the end is left free.
pub fn demangle_uncleared(s: &[u8], out: &mut [u8], work: &mut Work) -> Result<usize, Refusal>
    ensures same { SameWork work.old work.new }
    ensures told { Tells (answer most_symbol_bytes (lent (slices_of out.old work.old)) s.now) out.old out.new result }
{
    let at = symbol::behind_front(s)?;
    if !work.fits(work::ENDS) {
        return Err(Refusal::ShortWork);
    }
    read_behind(s, at, out, work)
}

// What is behind `at`, with the work slices cut to their least lengths.
fn read_behind(s: &[u8], at: usize, out: &mut [u8], work: &mut Work) -> Result<usize, Refusal>
    requires { ((at ≤ length s.now) × (length s.now ≤ most_symbol_bytes)) × Long least_ends (slices_of out.old work.old) }
    ensures same { SameWork work.old work.new }
    ensures told { Tells (within (length out.old) (mangled_name (drop at s.now))) out.old out.new result }
{
    read(
        &s[at..],
        out,
        &mut work.text[..work::TEXT],
        &mut work.store[..work::STORE],
        &mut work.ends[..work::ENDS],
    )
}

// What is behind _Z, read and printed. The work slices have their least lengths.
fn read(
    s: &[u8],
    out: &mut [u8],
    text: &mut [u8],
    store: &mut [u8],
    ends: &mut [u16],
) -> Result<usize, Refusal>
    requires { (length s.now ≤ most_text_bytes) × Least text.old store.old ends.old }
    ensures { Tells (within (length out.old) (mangled_name s.now)) out.old out.new result }
{
    let mut d = Demangler::new(s, text, store, ends);
    let n = mangled_name(&mut d)?;
    print(&d, n, out)
}

// The newest n bytes as a name.
fn print(d: &Demangler, n: usize, out: &mut [u8]) -> Result<usize, Refusal>
    requires { n ≤ d.now.stack.top }
    ensures { PrintsName d.now n out.old out.new result }
{
    if !ended_here(d) {
        return Err(Refusal::BytesLeft);
    }
    let slots = d.stack.slots(n);
    let size = n - slots;
    if out.len() < size {
        return Err(Refusal::ShortOutput);
    }
    symbol::write_counted(out, d.stack.newest(n), slots);
    Ok(size)
}
