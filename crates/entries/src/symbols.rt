// The entry for normal symbols.
ghost use Rattle.answer.specs.Lent.{SameWork, SameNumbers, all_slices_of};
ghost use Rattle.entries.specs.Outcome.{Normalizes};

use answer::work::{Numbers, Work};
use grammar::refusal::Refusal;
use normalize::reading::normalize_uncleared;

// The normal symbol of the symbol, into `out`. Work slices of any lengths and contents.
pub fn normalize(
    s: &[u8],
    out: &mut [u8],
    work: &mut Work,
    numbers: &mut Numbers,
) -> Result<usize, Refusal>
    ensures same { SameWork work.old work.new }
    ensures same_numbers { SameNumbers numbers.old numbers.new }
    ensures left { Normalizes s.now (all_slices_of out.old work.old numbers.old)
        (all_slices_of out.new work.new numbers.new) result }
{
    let answer = normalize_uncleared(s, out, work, numbers);
    work.clear();
    numbers.clear();
    answer
}
