// References and source names, written.
ghost use Rattle.std.specs.Prelude.{◌≡◌, suc, ◌+◌, ◌*◌, ◌/◌, ◌%◌, ◌≤◌, ◌<◌, length};
ghost use Rattle.grammar.specs.Text.{decimal};
ghost use Rattle.grammar.specs.Limits.{most_symbol_bytes};
ghost use Rattle.catalogue.specs.Spelling.{digit_of, base36, ref_bytes, name_bytes};
ghost use Rattle.normal_steps.specs.WrittenAt.{WrittenAt};

use grammar::{numbers, text};

// A digit or a capital.
fn digit_of(d: usize) -> u8
    requires { d < 36 }
    ensures { result ≡ digit_of d }
{
    if d < 10 {
        b'0' + d as u8
    } else {
        b'A' + (d - 10) as u8
    }
}

const BASE: usize = 36;

// A number by the base: how often it was taken off, and what is left.
#[derive(Clone, Copy)]
struct Split {
    high: usize,
    low: usize,
}

impl Split {
    // The base, doubled as often as it goes, is taken off. If it were taken off by itself, the loop of `by_36` would be compiled to a division.
    fn reduced(self) -> Self
        requires { (36 ≤ self.low) × (36 * self.high + self.low ≤ most_symbol_bytes) }
        ensures { (36 * result.high + result.low ≡ 36 * self.high + self.low) × (result.low + result.low < self.low) }
    {
        let mut part = BASE;
        let mut times: usize = 1;
        while part + part <= self.low {
            part += part;
            times += times;
        }
        Split {
            high: self.high + times,
            low: self.low - part,
        }
    }
}

// How often the base goes into a number, and what is left.
fn by_36(n: usize) -> Split
    requires { n ≤ most_symbol_bytes }
    ensures { (result.high ≡ n / 36) × (result.low ≡ n % 36) }
{
    let mut split = Split { high: 0, low: n };
    while BASE <= split.low {
        split = split.reduced();
    }
    split
}

// A number in base 36, the ABI's seq-id, in a call for each digit.
fn write_seq_id(out: &mut [u8], at: usize, n: usize) -> usize
    requires { (n ≤ most_symbol_bytes) × (at + length (base36 n n) ≤ length out.old) }
    ensures { WrittenAt out.old out.new at result (base36 n n) }
{
    let split = by_36(n);
    if split.high == 0 {
        out[at] = digit_of(split.low);
        return at + 1;
    }
    let last = write_seq_id(out, at, split.high);
    out[last] = digit_of(split.low);
    last + 1
}

// The reference to entry i.
pub fn write_reference(out: &mut [u8], at: usize, i: usize) -> usize
    requires { (i ≤ most_symbol_bytes) × (at + length (ref_bytes i) ≤ length out.old) }
    ensures { WrittenAt out.old out.new at result (ref_bytes i) }
{
    out[at] = b'S';
    if i == 0 {
        out[at + 1] = b'_';
        return at + 2;
    }
    let end = write_seq_id(out, at + 1, i - 1);
    out[end] = b'_';
    end + 1
}

// How many digits a number has.
fn decimal_length(n: usize) -> usize
    ensures { result ≡ length (decimal (suc n) n) }
{
    n.checked_ilog10().unwrap_or(0) as usize + 1
}

// A number in decimal.
fn write_decimal(out: &mut [u8], at: usize, n: usize) -> usize
    requires { at + length (decimal (suc n) n) ≤ length out.old }
    ensures { WrittenAt out.old out.new at result (decimal (suc n) n) }
{
    let end = at + decimal_length(n);
    numbers::write_decimal(out, end, n as u64);
    end
}

// The length of an identifier and its bytes.
pub fn write_name(out: &mut [u8], at: usize, word: &[u8]) -> usize
    requires { (length word.now ≤ most_symbol_bytes) × (at + length (name_bytes word.now) ≤ length out.old) }
    ensures { WrittenAt out.old out.new at result (name_bytes word.now) }
{
    let next = write_decimal(out, at, word.len());
    text::copy(out, next, word);
    next + word.len()
}
