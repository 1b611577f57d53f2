// The class of a first byte.
ghost use Rattle.std.specs.Prelude.{◌≡◌};
ghost use Rattle.catalogue.specs.Tree.{letter_code, wrap_code};
ghost use Rattle.catalogue.specs.Recogniser.{with_code, all_letters, all_wraps, lead};
ghost use Rattle.normal_steps.specs.Leads.{there, class};

// Which letter or wrapper it is, the byte says.
#[derive(Clone, Copy, Debug, PartialEq, Eq)]
pub enum Lead {
    Letter,
    Wrap,
    Digit,
    S,
    N,
    L,
    None,
}

// An arm for each byte, here and in `wrapper`: bytes in one pattern are compiled to tests of ranges, which take longer.
#[tactic(auto, using(crate::specs::Laws::Leads::bytes))]
pub fn letter(c: u8) -> bool
    ensures { result ≡ there (with_code letter_code c all_letters) }
{
    match c {
        b'v' => true,
        b'w' => true,
        b'b' => true,
        b'c' => true,
        b'a' => true,
        b'h' => true,
        b's' => true,
        b't' => true,
        b'i' => true,
        b'j' => true,
        b'l' => true,
        b'm' => true,
        b'x' => true,
        b'y' => true,
        b'n' => true,
        b'o' => true,
        b'f' => true,
        b'd' => true,
        b'e' => true,
        b'g' => true,
        b'z' => true,
        _ => false,
    }
}

#[tactic(auto, using(crate::specs::Laws::Leads::bytes))]
pub fn wrapper(c: u8) -> bool
    ensures { result ≡ there (with_code wrap_code c all_wraps) }
{
    match c {
        b'P' => true,
        b'R' => true,
        b'O' => true,
        b'K' => true,
        b'V' => true,
        _ => false,
    }
}

#[tactic(auto, using(std::proofs::lemmas::Bool::Decides::nat_tests), unfolding(crate::specs::Laws::Leads::classes))]
pub fn lead_of(c: u8) -> Lead
    ensures { result ≡ class (lead c) }
{
    match c {
        b'S' => Lead::S,
        b'N' => Lead::N,
        b'L' => Lead::L,
        _ if wrapper(c) => Lead::Wrap,
        _ if letter(c) => Lead::Letter,
        b'0'..=b'9' => Lead::Digit,
        _ => Lead::None,
    }
}
