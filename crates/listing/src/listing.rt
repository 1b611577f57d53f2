// The listing of lines: for each the number, the length and the name or the normal symbol that the symbol gets.
ghost use Rattle.std.specs.Prelude.{◌≡◌, ◌≤◌, ◌<◌, length};
ghost use Rattle.answer.specs.Told.{Tells};
ghost use Rattle.answer.specs.Lent.{SameWork, SameNumbers, all_slices_of};
ghost use Rattle.listing.specs.Listing.{line, answer_of, listing_line, least_ends_of, least_numbers_of, work_sized, Lists};
ghost use Rattle.listing.specs.Printed.{Heads, Printed};
ghost use Rattle.listing.specs.Lines.{GoesOn, full_at};
ghost use Rattle.listing.specs.Kinds.{LongFor};
ghost use Rattle.listing.specs.Entry.{Tried};

use answer::work::{Numbers, Work};
use answer::{bytes, number, work};
use demangle::reading::demangle_uncleared;
use grammar::numbers as digits;
use grammar::refusal::Refusal;
use grammar::state::Parser;
use memchr::memchr_iter;
use normalize::reading::normalize_uncleared;

// The least length of the slice for a name or a normal symbol; those of the others are the entries'.
pub const NAME: usize = Parser::TEXT;

// The most bytes of a line in front of the name: two numbers of five digits, each with its comma.
const HEAD: usize = 12;

// What is listed of a symbol: its name, or its normal symbol.
#[derive(Clone, Copy, Debug, PartialEq, Eq)]
pub enum Kind {
    Names,
    Symbols,
}

impl Kind {
    fn least_ends(self) -> usize
        ensures { result ≡ least_ends_of self }
    {
        match self {
            Kind::Names => work::ENDS,
            Kind::Symbols => work::NUMBERS,
        }
    }

    fn least_numbers(self) -> usize
        ensures { result ≡ least_numbers_of self }
    {
        match self {
            Kind::Names => 0,
            Kind::Symbols => work::NUMBERS,
        }
    }

    // Whether the slices are as long as they have to be.
    fn fits(self, name: &[u8], work: &Work, numbers: &Numbers) -> bool
        ensures { result ≡ work_sized self (all_slices_of name.now work.now numbers.now) }
    {
        NAME <= name.len() && work.fits(self.least_ends()) && numbers.fits(self.least_numbers())
    }
}

// How many bytes of the input were taken, and how many of the output written.
#[derive(Clone, Copy, Debug, PartialEq, Eq)]
pub struct Listed {
    pub taken: usize,
    pub written: usize,
}

// Number and length, each with its comma, at the end of `out`. Returned is where they begin.
fn write_head(out: &mut [u8; HEAD], number: u8, bytes: usize) -> usize
    requires { bytes < 100000 }
    ensures { Heads number bytes out.new result }
{
    out[HEAD - 1] = b',';
    let second = digits::write_decimal(out, HEAD - 1, bytes as u64);
    let comma = second - 1;
    out[comma] = b',';
    digits::write_decimal(out, comma, u64::from(number))
}

// The line with the number and the name, into `out`. Returned is its length, if it fits.
fn print_line(out: &mut [u8], number: u8, name: &[u8]) -> Option<usize>
    requires { length name.now < 100000 }
    ensures { Printed (line number (length name.now) name.now) out.old out.new result }
{
    let mut head = [0u8; HEAD];
    let from = write_head(&mut head, number, name.len());
    let n = HEAD - from;
    let last = n + name.len();
    if out.len() <= last {
        return None;
    }
    out[..n].copy_from_slice(&head[from..]);
    out[n..last].copy_from_slice(name);
    out[last] = b'\n';
    Some(last + 1)
}

// What is told where the next line does not fit.
fn full(taken: usize, written: usize) -> Result<Listed, Refusal>
    ensures { result ≡ full_at taken written }
{
    if taken == 0 {
        return Err(Refusal::ShortOutput);
    }
    Ok(Listed { taken, written })
}

// What lines are listed with: `name` gets a name or a normal symbol, and the others are the work slices of its entry. Only
// `list_lines` clears them.
#[derive(Drop)]
struct Lister<'n, 'w, 'a, 'm, 'b> {
    kind: Kind,
    name: &'n mut [u8],
    work: &'w mut Work<'a>,
    numbers: &'m mut Numbers<'b>,
    ghost long: { LongFor kind (all_slices_of name.now work.now numbers.now) },
}

impl Lister<'_, '_, '_, '_, '_> {
    ghost use Rattle.listing.specs.Lister.{SameLister};

    // The name or the normal symbol, into `name`.
    fn answer(&mut self, s: &[u8]) -> Result<usize, Refusal>
        ensures same { SameLister self.old self.new }
        ensures told { Tells (answer_of self.old.kind s.now) self.old.name.now self.new.name.now result }
    {
        match self.kind {
            Kind::Names => demangle_uncleared(s, self.name, self.work),
            Kind::Symbols => normalize_uncleared(s, self.name, self.work, self.numbers),
        }
    }

    // The listing line of a symbol, as `print_line` writes a line.
    fn write_line(&mut self, s: &[u8], out: &mut [u8]) -> Option<usize>
        ensures same { SameLister self.old self.new }
        ensures line { Printed (listing_line self.old.kind s.now) out.old out.new result }
    {
        let answer = self.answer(s);
        let bytes = bytes(answer);
        print_line(out, number(answer), &self.name[..bytes])
    }

    // The lines one after another, as long as their listing fits.
    fn write_lines(&mut self, input: &[u8], out: &mut [u8]) -> Result<Listed, Refusal>
        ensures same { SameLister self.old self.new }
        ensures lines { GoesOn self.old.kind input.now out.old out.new result }
    {
        let mut taken: usize = 0;
        let mut written: usize = 0;
        for feed in memchr_iter(b'\n', input) {
            let Some(n) = self.write_line(&input[taken..feed], &mut out[written..]) else {
                return full(taken, written);
            };
            taken = feed + 1;
            written += n;
        }
        Ok(Listed { taken, written })
    }
}

// The listing, or no line where a work slice is too short.
fn list_uncleared(
    kind: Kind,
    input: &[u8],
    out: &mut [u8],
    name: &mut [u8],
    work: &mut Work,
    numbers: &mut Numbers,
) -> Result<Listed, Refusal>
    ensures same { SameWork work.old work.new }
    ensures same_numbers { SameNumbers numbers.old numbers.new }
    ensures lines { Tried kind input.now out.old out.new (all_slices_of name.old work.old numbers.old) result }
{
    if !kind.fits(name, work, numbers) {
        return Err(Refusal::ShortWork);
    }
    let mut lister = Lister {
        kind,
        name,
        work,
        numbers,
    };
    lister.write_lines(input, out)
}

// The listing of the complete lines at the front of `input`, as many as fit into `out`. Work slices of any lengths and
// contents; where one is too short, or `out` for the first line, no line is taken.
pub fn list_lines(
    kind: Kind,
    input: &[u8],
    out: &mut [u8],
    name: &mut [u8],
    work: &mut Work,
    numbers: &mut Numbers,
) -> Result<Listed, Refusal>
    ensures same { SameWork work.old work.new }
    ensures same_numbers { SameNumbers numbers.old numbers.new }
    ensures left { Lists kind input.now out.old out.new
        (all_slices_of name.old work.old numbers.old) (all_slices_of name.new work.new numbers.new) result }
{
    let listed = list_uncleared(kind, input, out, name, work, numbers);
    name.fill(0);
    work.clear();
    numbers.clear();
    listed
}
