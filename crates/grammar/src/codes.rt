// The words that codes stand for, each in the arm of its code.
#![tactic(auto, unfolding(crate::proofs::Lookups::looked_up))]

ghost use Rattle.std.specs.Prelude.{[], ◌∷◌, ◌++◌, ◌≤◌};
ghost use Rattle.grammar.specs.Text.{b};
ghost use Rattle.grammar.specs.Tables.{letters, d_letters, operators, labels, abbreviations, qualifiers};
ghost use Rattle.grammar.specs.Words.{behind_type, at_slot, Spells};

// The type of one letter.
pub fn builtin(c: u8) -> Option<&'static [u8]>
    ensures { Spells letters (c ∷ []) result }
{
    match c {
        b'v' => Some(b"void"),
        b'w' => Some(b"wchar_t"),
        b'b' => Some(b"bool"),
        b'c' => Some(b"char"),
        b'a' => Some(b"signed char"),
        b'h' => Some(b"unsigned char"),
        b's' => Some(b"short"),
        b't' => Some(b"unsigned short"),
        b'i' => Some(b"int"),
        b'j' => Some(b"unsigned int"),
        b'l' => Some(b"long"),
        b'm' => Some(b"unsigned long"),
        b'x' => Some(b"long long"),
        b'y' => Some(b"unsigned long long"),
        b'n' => Some(b"__int128"),
        b'o' => Some(b"unsigned __int128"),
        b'f' => Some(b"float"),
        b'd' => Some(b"double"),
        b'e' => Some(b"long double"),
        b'g' => Some(b"__float128"),
        b'z' => Some(b"..."),
        _ => None,
    }
}

// The type of a letter behind D.
pub fn builtin_d(c: u8) -> Option<&'static [u8]>
    ensures { Spells d_letters (b "D" ++ (c ∷ [])) result }
{
    match c {
        b'n' => Some(b"decltype(nullptr)"),
        b'a' => Some(b"auto"),
        b'c' => Some(b"decltype(auto)"),
        b'i' => Some(b"char32_t"),
        b's' => Some(b"char16_t"),
        b'u' => Some(b"char8_t"),
        b'h' => Some(b"__fp16"),
        b'f' => Some(b"_Float32"),
        b'd' => Some(b"_Float64"),
        _ => None,
    }
}

// The operator of two letters; two functions, since one would be too long.
pub fn operator_name(a: u8, c: u8) -> Option<&'static [u8]>
    ensures { Spells operators (a ∷ c ∷ []) result }
{
    if b'm' <= a {
        return operator_from_m(a, c);
    }
    match (a, c) {
        (b'a', b'd') => Some(b"operator&"),
        (b'a', b'n') => Some(b"operator&"),
        (b'a', b'S') => Some(b"operator="),
        (b'a', b'N') => Some(b"operator&="),
        (b'a', b'a') => Some(b"operator&&"),
        (b'c', b'o') => Some(b"operator~"),
        (b'c', b'm') => Some(b"operator,"),
        (b'c', b'l') => Some(b"operator()"),
        (b'd', b'l') => Some(b"operator delete"),
        (b'd', b'a') => Some(b"operator delete[]"),
        (b'd', b'e') => Some(b"operator*"),
        (b'd', b'v') => Some(b"operator/"),
        (b'd', b'V') => Some(b"operator/="),
        (b'e', b'o') => Some(b"operator^"),
        (b'e', b'O') => Some(b"operator^="),
        (b'e', b'q') => Some(b"operator=="),
        (b'g', b't') => Some(b"operator>"),
        (b'g', b'e') => Some(b"operator>="),
        (b'i', b'x') => Some(b"operator[]"),
        (b'l', b's') => Some(b"operator<<"),
        (b'l', b'S') => Some(b"operator<<="),
        (b'l', b't') => Some(b"operator<"),
        (b'l', b'e') => Some(b"operator<="),
        _ => None,
    }
}

fn operator_from_m(a: u8, c: u8) -> Option<&'static [u8]>
    requires { 109 ≤ a }
    ensures { Spells operators (a ∷ c ∷ []) result }
{
    match (a, c) {
        (b'm', b'i') => Some(b"operator-"),
        (b'm', b'l') => Some(b"operator*"),
        (b'm', b'I') => Some(b"operator-="),
        (b'm', b'L') => Some(b"operator*="),
        (b'm', b'm') => Some(b"operator--"),
        (b'n', b'w') => Some(b"operator new"),
        (b'n', b'a') => Some(b"operator new[]"),
        (b'n', b'g') => Some(b"operator-"),
        (b'n', b'e') => Some(b"operator!="),
        (b'n', b't') => Some(b"operator!"),
        (b'o', b'r') => Some(b"operator|"),
        (b'o', b'R') => Some(b"operator|="),
        (b'o', b'o') => Some(b"operator||"),
        (b'p', b's') => Some(b"operator+"),
        (b'p', b'l') => Some(b"operator+"),
        (b'p', b'L') => Some(b"operator+="),
        (b'p', b'p') => Some(b"operator++"),
        (b'p', b'm') => Some(b"operator->*"),
        (b'p', b't') => Some(b"operator->"),
        (b'q', b'u') => Some(b"operator?"),
        (b'r', b'm') => Some(b"operator%"),
        (b'r', b'M') => Some(b"operator%="),
        (b'r', b's') => Some(b"operator>>"),
        (b'r', b'S') => Some(b"operator>>="),
        (b's', b's') => Some(b"operator<=>"),
        _ => None,
    }
}

// The name of std, by the letter behind S.
pub fn abbreviation(c: u8) -> Option<&'static [u8]>
    ensures { Spells abbreviations (c ∷ []) result }
{
    match c {
        b't' => Some(b"std"),
        b'a' => Some(b"std::allocator"),
        b'b' => Some(b"std::basic_string"),
        b's' => Some(b"std::basic_string<char, std::char_traits<char>, std::allocator<char> >"),
        b'i' => Some(b"std::basic_istream<char, std::char_traits<char> >"),
        b'o' => Some(b"std::basic_ostream<char, std::char_traits<char> >"),
        b'd' => Some(b"std::basic_iostream<char, std::char_traits<char> >"),
        _ => None,
    }
}

// What stands before the type of a special name, by the letter behind T.
pub fn label(c: u8) -> Option<&'static [u8]>
    ensures { Spells labels (b "T" ++ (c ∷ [])) result }
{
    match c {
        b'V' => Some(b"vtable for "),
        b'T' => Some(b"VTT for "),
        b'I' => Some(b"typeinfo for "),
        b'S' => Some(b"typeinfo name for "),
        _ => None,
    }
}

// What a qualifier of a nested name prints.
pub fn qualifier(c: u8) -> Option<&'static [u8]>
    ensures { Spells qualifiers (c ∷ []) result }
{
    match c {
        b'K' => Some(b" const"),
        b'V' => Some(b" volatile"),
        b'R' => Some(b" &"),
        b'O' => Some(b" &&"),
        b'r' => Some(b""),
        _ => None,
    }
}

// What a wrapper puts behind a type.
pub fn wrapper(c: u8) -> Option<&'static [u8]>
    ensures { Spells behind_type (c ∷ []) result }
{
    match c {
        b'P' => Some(b"*"),
        b'R' => Some(b"&"),
        b'O' => Some(b"&&"),
        b'K' => Some(b" const"),
        b'V' => Some(b" volatile"),
        b'C' => Some(b" complex"),
        b'r' => Some(b" restrict"),
        _ => None,
    }
}

// What a wrapper puts at a slot of a type: what it puts behind one, but for C and r.
pub fn slot_wrapper(c: u8) -> Option<&'static [u8]>
    ensures { Spells at_slot (c ∷ []) result }
{
    match c {
        b'C' | b'r' => Some(b""),
        _ => wrapper(c),
    }
}
