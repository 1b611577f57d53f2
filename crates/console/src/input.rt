// Standard input.
ghost use Rattle.std.specs.Prelude.{◌≡◌, ◌+◌, ◌≤◌, length};
ghost use Rattle.listing.specs.Cut.{most_kept};
ghost use Rattle.console.specs.Turns.{ReadsOn};

use crate::buffer::Buffer;
use crate::failed::Failed;
use std::io::Read;

// Reads once, and puts what was read into the buffer. Returned is how many bytes they are: none at the end of the input.
pub fn read_some<R: Read>(
    input: &mut R,
    chunk: &mut [u8],
    buffer: &mut Buffer<'_>,
) -> Result<usize, Failed>
    requires room { most_kept + 1 + length chunk.old ≤ length buffer.old.lines.now }
    requires all_listed { buffer.old.from ≡ buffer.old.start }
    ensures { ReadsOn chunk.new (R.remaining input.old) (R.remaining input.new) buffer.old buffer.new result }
{
    let n = input.read(chunk).map_err(|_| Failed::Input)?;
    buffer.add_chunk(&chunk[..n]);
    Ok(n)
}
