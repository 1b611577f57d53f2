// The catalogue of document 01 is defined and its laws are proved in specs/. The code here is one number of it.
#![tactic(auto)]

ghost use Rattle.std.specs.Prelude.{◌≡◌};
ghost use Rattle.catalogue.specs.Class.{most_arguments};

// The arguments of all lists of a symbol together.
pub const ARGUMENTS: usize = 1024;

pub fn most_arguments() -> usize
    ensures { result ≡ most_arguments }
{
    ARGUMENTS
}
