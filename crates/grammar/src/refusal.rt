// Why a symbol gets no name, or no normal symbol: document 01's numbers.
ghost use Rattle.std.specs.Prelude.{◌≡◌};
ghost use Rattle.grammar.specs.Refusals.{refusal_number};

#[derive(Clone, Copy, Debug, PartialEq, Eq)]
pub enum Refusal {
    // longer than a symbol may be
    LongSymbol = 1,
    // a byte of 128 or more
    HighByte = 2,
    // neither _Z nor __Z in front
    NoFront = 3,
    // no rule of the reading fits
    NoRule = 4,
    // bytes left that don't begin with a dot
    BytesLeft = 5,
    // read, but no catalogue symbol
    NotCatalogue = 6,
    // a reference past the table
    PastTable = 7,
    // too many readings open
    TooDeep = 8,
    // the table has no room for an entry
    TableFull = 9,
    // nor that of the template arguments
    ArgumentsFull = 10,
    // a text longer than can be returned
    LongText = 11,
    // the output slice is shorter than the result
    ShortOutput = 12,
    // the normal symbol is longer than a symbol may be
    LongNormalSymbol = 13,
    // a work slice is below its least length
    ShortWork = 14,
}

impl From<Refusal> for u8 {
    ghost from_gives = { λ e n. n ≡ refusal_number e };

    fn from(refusal: Refusal) -> u8 {
        refusal as u8
    }
}
