// The entry for names.
ghost use Rattle.answer.specs.Lent.{SameWork, slices_of};
ghost use Rattle.entries.specs.Outcome.{Demangles};

use answer::work::Work;
use demangle::reading::demangle_uncleared;
use grammar::refusal::Refusal;

// The name of the symbol, into `out`. Work slices of any lengths and contents.
pub fn demangle(s: &[u8], out: &mut [u8], work: &mut Work) -> Result<usize, Refusal>
    ensures same { SameWork work.old work.new }
    ensures left { Demangles s.now (slices_of out.old work.old) (slices_of out.new work.new) result }
{
    let answer = demangle_uncleared(s, out, work);
    work.clear();
    answer
}
