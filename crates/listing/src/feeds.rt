// Where lines end.
ghost use Rattle.std.specs.Prelude.{◌≡◌, ◌≤◌, length};
ghost use Rattle.listing.specs.Lines.{feed_from};

use memchr::memchr;

// The place of the next line feed, or the end.
pub fn line_end(s: &[u8], at: usize) -> usize
    requires { at ≤ length s.now }
    ensures { (result ≡ feed_from s.now at) × (result ≤ length s.now) }
{
    let rest = &s[at..];
    at + memchr(b'\n', rest).unwrap_or(rest.len())
}
