// The one-pass reading of a catalogue symbol, which writes its normal symbol as it goes, is defined and its laws are proved in specs/.
// The code here is the most bytes that a reference has, of the entries that a symbol has room for.
#![tactic(auto)]

ghost use Rattle.std.specs.Prelude.{ℕ, ◌≤◌, length};
ghost use Rattle.grammar.specs.Limits.{most_symbol_bytes};
ghost use Rattle.catalogue.specs.Spelling.{ref_bytes};

pub fn most_reference() -> usize
    ensures { (i : ℕ) → i ≤ most_symbol_bytes → length (ref_bytes i) ≤ result }
{
    5
}
