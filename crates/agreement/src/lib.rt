// That the reading agrees with the catalogue's trees is proved in specs/. The code here is the limit that demand 3 speaks of.
#![tactic(auto)]

ghost use Rattle.std.specs.Prelude.{◌≡◌};
ghost use Rattle.grammar.specs.Limits.{most_symbol_bytes};

use grammar::state::Parser;

pub fn most_symbol_bytes() -> usize
    ensures { result ≡ most_symbol_bytes }
{
    Parser::SYMBOL
}
