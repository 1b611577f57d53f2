// The reading for normal symbols.
ghost use Rattle.std.specs.Prelude.{[], ◌≡◌, ◌≤◌, length, take};
ghost use Rattle.std.proofs.Math.Option.{some};
ghost use Rattle.grammar.specs.Limits.{most_symbol_bytes};
ghost use Rattle.grammar.specs.Names.{demangle, within};
ghost use Rattle.catalogue.specs.Answer.{normal_told, normal_answer, least_numbers};
ghost use Rattle.answer.specs.Told.{lent, told, numbered, Tells, Long, LongNumbers};
ghost use Rattle.answer.specs.Lent.{SameWork, SameNumbers, slices_of, numbers_of, all_slices_of};
ghost use Rattle.normal_steps.specs.Limits.{out_length};
ghost use Rattle.normal_steps.specs.Carries.{Sized};
ghost use Rattle.normalize.specs.Parts.{accepted_answer};

use answer::work;
use answer::work::{Numbers, Work};
use demangle::{reading, symbol};
use grammar::refusal::Refusal;
use grammar::state::Parser;
use normal_steps::state::{State, Writer};
use normal_writer::symbol as writing;

// The normal symbol of the symbol, into `out`. Work slices of any lengths and contents; what they hold at the end is left free.
pub fn normalize_uncleared(
    s: &[u8],
    out: &mut [u8],
    work: &mut Work,
    numbers: &mut Numbers,
) -> Result<usize, Refusal>
    ensures same { SameWork work.old work.new }
    ensures same_numbers { SameNumbers numbers.old numbers.new }
    ensures told { Tells (normal_answer most_symbol_bytes (lent (all_slices_of out.old work.old numbers.old)) s.now)
        out.old out.new result }
{
    symbol::behind_front(s)?;
    if !work.fits(work::NUMBERS) || !numbers.fits(work::NUMBERS) {
        return Err(Refusal::ShortWork);
    }
    accepted(s, work)?;
    write_within(s, out, work, numbers)
}

// The reading for the name, which is not kept.
fn accepted(s: &[u8], work: &mut Work) -> Result<usize, Refusal>
    requires { Long least_numbers (slices_of [] work.old) }
    ensures same { SameWork work.old work.new }
    ensures told { numbered result ≡ told (demangle most_symbol_bytes s.now) }
{
    let mut name = [0u8; Parser::TEXT];
    reading::demangle_uncleared(s, &mut name, work)
}

// The normal symbol of an accepted symbol. It is written in `store` first: `text` may be too short for it.
fn write_within(
    s: &[u8],
    out: &mut [u8],
    work: &mut Work,
    numbers: &mut Numbers,
) -> Result<usize, Refusal>
    requires long { (length s.now ≤ most_symbol_bytes) × Long least_numbers (slices_of [] work.old) }
    requires long_numbers { LongNumbers least_numbers (numbers_of numbers.old) }
    ensures same { SameWork work.old work.new }
    ensures same_numbers { SameNumbers numbers.old numbers.new }
    ensures told { Tells (accepted_answer (length out.old) s.now) out.old out.new result }
{
    write(
        s,
        out,
        &mut work.store[..Writer::OUT],
        &mut work.ends[..work::NUMBERS],
        &mut numbers.words[..work::NUMBERS],
        &mut numbers.tables[..work::NUMBERS],
        &mut numbers.chains[..work::NUMBERS],
    )
}

fn write(
    s: &[u8],
    out: &mut [u8],
    store: &mut [u8],
    ends: &mut [u16],
    words: &mut [u16],
    tables: &mut [u16],
    chains: &mut [u16],
) -> Result<usize, Refusal>
    requires { (length s.now ≤ most_symbol_bytes) × ((length store.old ≡ out_length) × Sized ends.old words.old tables.old chains.old) }
    ensures { Tells (accepted_answer (length out.old) s.now) out.old out.new result }
{
    let mut w = Writer {
        s,
        out: store,
        ends,
        words,
        tables,
        chains,
        state: State::begun(0, 0),
    };
    writing::write_symbol(&mut w).ok_or(Refusal::NotCatalogue)?;
    let n = w.state.out;
    print(out, &w.out[..n])
}

// The text as the normal symbol.
fn print(out: &mut [u8], text: &[u8]) -> Result<usize, Refusal>
    ensures { Tells (within (length out.old) (normal_told most_symbol_bytes (some text.now))) out.old out.new result }
{
    if Parser::SYMBOL < text.len() {
        return Err(Refusal::LongNormalSymbol);
    }
    if out.len() < text.len() {
        return Err(Refusal::ShortOutput);
    }
    out[..text.len()].copy_from_slice(text);
    Ok(text.len())
}
