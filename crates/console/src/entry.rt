// The entry: a program is a call of it.
ghost use Rattle.std.specs.Prelude.{◌++◌, ◌∷◌, [], OnOk};
ghost use Rattle.std.specs.Io.KnownBytes.{Appends};
ghost use Rattle.listing.specs.Listing.{line_feed};
ghost use Rattle.console.specs.Failed.{told};
ghost use Rattle.console.specs.Turns.{Runs};

use crate::buffer::MOST_KEPT;
use crate::failed::Failed;
use crate::output::Lister;
use crate::stream::write_whole;
use crate::turns::list_input;
use answer::work;
use answer::work::{Numbers, Work};
use listing::listing::{Kind, NAME};
use std::io;
use std::io::{Read, Write};

// So many bytes are read at once, and so many of the listing are written at once.
const CHUNK: usize = 65536;

fn tell<E: Write>(errors: &mut E, failed: Failed) -> io::Result<()>
    ensures { OnOk result (Appends (E.contents errors.old) (E.contents errors.new) (told failed ++ line_feed ∷ [])) }
{
    write_whole(errors, failed.line().as_bytes())
}

// Writes the header, and the listing of the input, one symbol a line. What fails is told to `errors`. The work slices are long
// enough for either kind.
pub fn run<R: Read, W: Write, E: Write>(input: &mut R, output: &mut W, errors: &mut E, kind: Kind)
    ensures { Runs kind (R.remaining input.old) (R.remaining input.new) (W.contents output.old) (W.contents output.new) (E.contents errors.old) (E.contents errors.new) }
{
    let mut chunk = [0u8; CHUNK];
    let mut lines = [0u8; CHUNK + MOST_KEPT + 1];
    let mut lister = Lister {
        kind,
        out: &mut [0u8; CHUNK],
        name: &mut [0u8; NAME],
        work: Work {
            text: &mut [0u8; work::TEXT],
            store: &mut [0u8; work::STORE],
            ends: &mut [0u16; work::NUMBERS],
        },
        numbers: Numbers {
            words: &mut [0u16; work::NUMBERS],
            tables: &mut [0u16; work::NUMBERS],
            chains: &mut [0u16; work::NUMBERS],
        },
    };
    if let Err(failed) = list_input(input, output, &mut chunk, &mut lines, &mut lister) {
        let _ = tell(errors, failed);
    }
}
