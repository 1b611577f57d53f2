// The turns of reading and writing.
ghost use Rattle.std.specs.Prelude.{◌+◌, ◌<◌, ◌≤◌, length, MatchResult};
ghost use Rattle.listing.specs.Cut.{most_kept};
ghost use Rattle.console.specs.Turns.{Ends, Stops};
ghost use Rattle.console.specs.Lister.{SameLister};

use crate::buffer::Buffer;
use crate::failed::Failed;
use crate::input::read_some;
use crate::output::{Lister, write_header};
use std::io::{Read, Write};

// Writes the header, and turn by turn the listing of the input. `Ok` where all of it is listed. The turns are counted, up to
// a number that no run uses up, since a proved loop has to end.
pub fn list_input<R: Read, W: Write>(
    input: &mut R,
    output: &mut W,
    chunk: &mut [u8],
    lines: &mut [u8],
    lister: &mut Lister<'_>,
) -> Result<(), Failed>
    requires { most_kept + 1 + length chunk.old ≤ length lines.old }
    ensures same { SameLister lister.old lister.new }
    ensures turns { MatchResult result
        (λ _. 0 < length chunk.old → Ends lister.old.kind (R.remaining input.old) (R.remaining input.new) (W.contents output.old) (W.contents output.new))
        (λ _. Stops lister.old.kind (R.remaining input.old) (R.remaining input.new) (W.contents output.old) (W.contents output.new)) }
{
    let mut buffer = Buffer::new(lines);
    write_header(output)?;
    for _ in 0..u64::MAX {
        let n = read_some(input, chunk, &mut buffer)?;
        while buffer.from < buffer.start {
            lister.write_some(output, &mut buffer)?;
        }
        if n == 0 {
            return Ok(());
        }
    }
    Err(Failed::Input)
}
