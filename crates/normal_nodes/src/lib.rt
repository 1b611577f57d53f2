// The walk over a catalogue symbol with a number for each tree is defined, and proved equal to the walk, in specs/.
// The code here is the number of the first node.
#![tactic(auto)]

ghost use Rattle.std.specs.Prelude.{◌≡◌};
ghost use Rattle.normal_nodes.specs.Nodes.{least_number as least};

pub fn least_number() -> usize
    ensures { result ≡ least }
{
    256
}
