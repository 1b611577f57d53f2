// What ends a run before all of the input is listed.
ghost use Rattle.std.specs.Prelude.{Some, ◌≡◌, ◌++◌, ◌∷◌, []};
ghost use Rattle.listing.specs.Listing.{line_feed};
ghost use Rattle.console.specs.Failed.{told};

use std::fmt;

// The stream that failed.
#[derive(Clone, Copy)]
pub enum Failed {
    Input,
    Output,
}

impl Failed {
    // The line that standard error gets.
    pub fn line(self) -> &'static str
        ensures { result.now ≡ told self ++ line_feed ∷ [] }
    {
        match self {
            Failed::Input => "patch names: standard input can't be read\n",
            Failed::Output => "patch names: standard output can't be written\n",
        }
    }
}

// The line without its line feed.
impl fmt::Display for Failed {
    ghost output = { λ f. Some (told f) };

    fn fmt<W: fmt::Write>(&self, f: &mut fmt::Formatter<W>) -> fmt::Result {
        let line = self.line();
        f.write_str(&line[..line.len() - 1])
    }
}
