// Bytes to a stream.
ghost use Rattle.std.specs.Prelude.{ℕ, take, MatchResult};
ghost use Rattle.std.specs.Io.KnownBytes.{Appends};

use std::io;
use std::io::Write;

// Writes all of `bytes`, or the first of them where a write fails or takes nothing. A call that was interrupted has failed.
pub fn write_whole<W: Write>(to: &mut W, bytes: &[u8]) -> io::Result<()>
    ensures { MatchResult result (λ _. Appends (W.contents to.old) (W.contents to.new) bytes.now)
        (λ _. (n : ℕ) × Appends (W.contents to.old) (W.contents to.new) (take n bytes.now)) }
{
    let mut rest = bytes;
    while !rest.is_empty() {
        let n = to.write(rest)?;
        if n == 0 {
            return Err(io::ErrorKind::WriteZero.into());
        }
        rest = &rest[n..];
    }
    Ok(())
}
