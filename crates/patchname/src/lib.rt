// The entries and the listing as C functions. A slice is a pointer and a length.
#![tactic(auto)]

ghost use Rattle.std.specs.Prelude.{◌≡◌};
ghost use Rattle.answer.specs.Told.{slices, normal_slices, numbered, number_in, bytes_in};
ghost use Rattle.entries.specs.Outcome.{demangled, normalized};
ghost use Rattle.listing.specs.Listing.{listed, number_told, taken_told, written_told};
ghost use Rattle.listing.specs.declared.listing.Kind.TheVariants.{Names, Symbols};
ghost use Rattle.patchname.specs.Exports.{Returns, Returns_listing};

use answer::work::{Numbers, Work};
use entries::names::demangle;
use entries::symbols::normalize;
use grammar::refusal::Refusal;
use listing::listing::{Kind, Listed, list_lines};

// The number of an answer; its length goes to `bytes`.
fn tell(answer: Result<usize, Refusal>, bytes: &mut usize) -> u8
    ensures { (result ≡ number_in (numbered answer)) × (bytes.new ≡ bytes_in (numbered answer)) }
{
    *bytes = answer::bytes(answer);
    answer::number(answer)
}

// The name of a symbol, into `out`: its number is returned, and its length goes to `bytes`.
#[unsafe(no_mangle)]
pub extern "C" fn patchname_demangle(
    s: &[u8],
    out: &mut [u8],
    text: &mut [u8],
    store: &mut [u8],
    ends: &mut [u16],
    bytes: &mut usize,
) -> u8
    ensures { Returns (demangled s.now (slices out.old text.old store.old ends.old))
        (slices out.new text.new store.new ends.new) result bytes.new }
{
    let mut work = Work { text, store, ends };
    let answer = demangle(s, out, &mut work);
    tell(answer, bytes)
}

// The normal symbol of a symbol, the same way.
#[unsafe(no_mangle)]
pub extern "C" fn patchname_normalize(
    s: &[u8],
    out: &mut [u8],
    text: &mut [u8],
    store: &mut [u8],
    ends: &mut [u16],
    words: &mut [u16],
    tables: &mut [u16],
    chains: &mut [u16],
    bytes: &mut usize,
) -> u8
    ensures { Returns (normalized s.now
        (normal_slices out.old text.old store.old ends.old words.old tables.old chains.old))
        (normal_slices out.new text.new store.new ends.new words.new tables.new chains.new) result bytes.new }
{
    let mut work = Work { text, store, ends };
    let mut numbers = Numbers {
        words,
        tables,
        chains,
    };
    let answer = normalize(s, out, &mut work, &mut numbers);
    tell(answer, bytes)
}

// The number of a listing; the bytes taken and those written go to `taken` and `written`.
fn tell_listing(listed: Result<Listed, Refusal>, taken: &mut usize, written: &mut usize) -> u8
    ensures { (result ≡ number_told listed) × ((taken.new ≡ taken_told listed) × (written.new ≡ written_told listed)) }
{
    match listed {
        Ok(listed) => {
            *taken = listed.taken;
            *written = listed.written;
            0
        }
        Err(refusal) => {
            *taken = 0;
            *written = 0;
            u8::from(refusal)
        }
    }
}

// The listing of the complete lines at the front of `input`: the number is returned, and the bytes taken and those written go to
// `taken` and `written`.
#[unsafe(no_mangle)]
pub extern "C" fn patchname_list_names(
    input: &[u8],
    out: &mut [u8],
    name: &mut [u8],
    text: &mut [u8],
    store: &mut [u8],
    ends: &mut [u16],
    taken: &mut usize,
    written: &mut usize,
) -> u8
    ensures { Returns_listing (listed Names input.now out.old (slices name.old text.old store.old ends.old))
        out.new (slices name.new text.new store.new ends.new) result taken.new written.new }
{
    let mut work = Work { text, store, ends };
    let mut numbers = Numbers {
        words: &mut [0u16; 0],
        tables: &mut [0u16; 0],
        chains: &mut [0u16; 0],
    };
    let listed = list_lines(Kind::Names, input, out, name, &mut work, &mut numbers);
    tell_listing(listed, taken, written)
}

// The same with normal symbols in the names' place.
#[unsafe(no_mangle)]
pub extern "C" fn patchname_list_normal_symbols(
    input: &[u8],
    out: &mut [u8],
    name: &mut [u8],
    text: &mut [u8],
    store: &mut [u8],
    ends: &mut [u16],
    words: &mut [u16],
    tables: &mut [u16],
    chains: &mut [u16],
    taken: &mut usize,
    written: &mut usize,
) -> u8
    ensures { Returns_listing (listed Symbols input.now out.old
        (normal_slices name.old text.old store.old ends.old words.old tables.old chains.old))
        out.new (normal_slices name.new text.new store.new ends.new words.new tables.new chains.new)
        result taken.new written.new }
{
    let mut work = Work { text, store, ends };
    let mut numbers = Numbers {
        words,
        tables,
        chains,
    };
    let listed = list_lines(Kind::Symbols, input, out, name, &mut work, &mut numbers);
    tell_listing(listed, taken, written)
}
