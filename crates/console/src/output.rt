// Standard output.
ghost use Rattle.std.specs.Prelude.{◌≡◌, ◌≤◌, ◌<◌, length, take};
ghost use Rattle.answer.specs.Lent.{all_slices_of};
ghost use Rattle.listing.specs.Listing.{most_line_bytes};
ghost use Rattle.listing.specs.Kinds.{LongFor};
ghost use Rattle.console.specs.Output.{header};
ghost use Rattle.console.specs.Turns.{Writes};

use crate::buffer::Buffer;
use crate::failed::Failed;
use crate::stream::write_whole;
use answer::work::{Numbers, Work};
use listing::listing::{Kind, list_lines};
use std::io::Write;

fn write<W: Write>(output: &mut W, bytes: &[u8]) -> Result<(), Failed>
    ensures { Writes (W.contents output.old) (W.contents output.new) bytes.now result }
{
    write_whole(output, bytes).map_err(|_| Failed::Output)
}

pub fn write_header<W: Write>(output: &mut W) -> Result<(), Failed>
    ensures { Writes (W.contents output.old) (W.contents output.new) header result }
{
    write(output, b"code,bytes,name\n")
}

// What lines are listed with: `out` gets the listing, and the others are the work slices of `list_lines`.
#[derive(Drop)]
pub struct Lister<'a> {
    pub kind: Kind,
    pub out: &'a mut [u8],
    pub name: &'a mut [u8],
    pub work: Work<'a>,
    pub numbers: Numbers<'a>,
    ghost room: { most_line_bytes ≤ length out.now },
    ghost long_for: { LongFor kind (all_slices_of name.now work numbers) },
}

impl Lister<'_> {
    ghost use Rattle.console.specs.Turns.{WritesOn};
    ghost use Rattle.console.specs.Lister.{SameLister};

    // Writes the first n bytes of `out`.
    fn write_front<W: Write>(&self, output: &mut W, n: usize) -> Result<(), Failed>
        requires { n ≤ length self.now.out.now }
        ensures { Writes (W.contents output.old) (W.contents output.new) (take n self.now.out.now) result }
    {
        write(output, &self.out[..n])
    }

    // Writes the listing of the first lines in the buffer, as many as fit into `out`, from the front of it.
    pub fn write_some<W: Write>(
        &mut self,
        output: &mut W,
        buffer: &mut Buffer<'_>,
    ) -> Result<(), Failed>
        requires { buffer.old.from < buffer.old.start }
        ensures writes { WritesOn self.old.kind self.new.out.now (W.contents output.old) (W.contents output.new) buffer.old buffer.new result }
        ensures same { SameLister self.old self.new }
    {
        let listed = list_lines(
            self.kind,
            buffer.waiting(),
            self.out,
            self.name,
            &mut self.work,
            &mut self.numbers,
        )
        .unwrap();
        buffer.skip(listed.taken);
        self.write_front(output, listed.written)
    }
}
