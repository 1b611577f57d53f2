// Bytes copied, looked for, and compared with a word.
ghost use Rattle.std.specs.Prelude.{◌≡◌, ◌+◌, ◌≤◌, not, [], ◌∷◌, length, drop, ◌==◌, nat_eq};
ghost use Rattle.std.proofs.Math.Seq.{paste};
ghost use Rattle.grammar.specs.Text.{starts, run};

pub fn copy(out: &mut [u8], at: usize, src: &[u8])
    requires { at + length src.now ≤ length out.old }
    ensures { out.new ≡ paste out.old at src.now (length src.now) }
{
    out[at..at + src.len()].copy_from_slice(src);
}

// Whether the word stands at `at`; past the end only the empty word does.
pub fn starts_with(s: &[u8], at: usize, word: &[u8]) -> bool
    ensures { result ≡ starts (drop at s.now) word.now }
{
    s.get(at..).unwrap_or(&[]).starts_with(word)
}

// Whether the byte stands at a place.
pub fn here(s: &[u8], at: usize, c: u8) -> bool
    ensures { result ≡ starts (drop at s.now) (c ∷ []) }
{
    s.get(at) == Some(&c)
}

// The place of the next byte c, or the end.
pub fn before(s: &[u8], at: usize, c: u8) -> usize
    requires { at ≤ length s.now }
    ensures { (result ≡ at + length (run (λ x. not (x == c)) (drop at s.now))) × (result ≤ length s.now) }
{
    let rest = &s[at..];
    at + rest.iter().position(|x| *x == c).unwrap_or(rest.len())
}

// The place behind all bytes c.
pub fn behind(s: &[u8], at: usize, c: u8) -> usize
    requires { at ≤ length s.now }
    ensures { (result ≡ at + length (run (λ x. nat_eq x c) (drop at s.now))) × (result ≤ length s.now) }
{
    let rest = &s[at..];
    at + rest.iter().position(|x| *x != c).unwrap_or(rest.len())
}
