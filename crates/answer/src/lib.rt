// What is told of the answer for a symbol, the length of its name or the first refusal; and the work slices that are lent for it.
#![tactic(auto)]

pub mod work;

ghost use Rattle.std.specs.Prelude.{◌≡◌};
ghost use Rattle.answer.specs.Told.{numbered, number_in, bytes_in};

use grammar::refusal::Refusal;

pub fn number(answer: Result<usize, Refusal>) -> u8
    ensures { result ≡ number_in (numbered answer) }
{
    match answer {
        Ok(_) => 0,
        Err(refusal) => u8::from(refusal),
    }
}

pub fn bytes(answer: Result<usize, Refusal>) -> usize
    ensures { result ≡ bytes_in (numbered answer) }
{
    answer.unwrap_or(0)
}
