// Numbers in a base, read from the bytes of a symbol; and written in decimal.
ghost use Rattle.std.specs.Prelude.{◌≡◌, ◌+◌, ◌*◌, ◌≤◌, min, length};
ghost use Rattle.grammar.specs.Text.{digit_value};
ghost use Rattle.grammar.specs.Numbers.{most, Numbered, decimal_size, Decimal};

#[derive(Clone, Copy)]
pub struct Number {
    pub value: u64,
    pub next: usize,
}

impl Number {
    // The value of a number that is 2^64 - 1 or more.
    pub const PAST: u64 = u64::MAX;
}

// The value of a digit, or 36.
pub fn digit_value(c: u8) -> u64
    ensures { result ≡ digit_value c }
{
    match c {
        b'0'..=b'9' => u64::from(c - b'0'),
        b'A'..=b'Z' => u64::from(c - b'A' + 10),
        b'a'..=b'z' => u64::from(c - b'a' + 10),
        _ => 36,
    }
}

// The digits of the base that stand at `at`, and the place behind them.
pub fn digits_in(s: &[u8], at: usize, base: u64) -> Number
    requires { 1 ≤ base }
    ensures { Numbered base s.now at result }
{
    let mut value: u64 = 0;
    for next in at..s.len() {
        let d = digit_value(s[next]);
        if base <= d {
            return Number { value, next };
        }
        value = value.saturating_mul(base).saturating_add(d);
    }
    Number {
        value,
        next: at.max(s.len()),
    }
}

// The same, of a base that is known beforehand.
pub fn digits<const BASE: u64>(s: &[u8], at: usize) -> Number
    requires { 1 ≤ BASE }
    ensures { Numbered BASE s.now at result }
{
    digits_in(s, at, BASE)
}

// The digits of n, the last of them before `end`. Returned is the place of the first.
pub fn write_decimal(out: &mut [u8], end: usize, n: u64) -> usize
    requires { (decimal_size n ≤ end) × (end ≤ length out.old) }
    ensures { Decimal n end out.old out.new result }
{
    let mut from = end;
    let mut rest = n;
    loop {
        from -= 1;
        out[from] = b'0' + (rest % 10) as u8;
        rest /= 10;
        if rest == 0 {
            return from;
        }
    }
}
