// The errors of the full list: those of the parser, and losses.
ghost use Rattle.definition.specs.Numbers.{ParseErrorNumber};

#[derive(Clone, Copy, PartialEq, Eq)]
pub enum ParseError {
    TopLevel = 1,
    Expected = 2,
    ExpectedAtEnd = 3,
    Identifier = 4,
    EndOfFile = 5,
    StatementAtEnd = 6,
    Expression = 7,
    ExpressionAtEnd = 8,
    ArraySize = 9,
    ArraySizePositive = 10,
    Type = 11,
    TypeAtEnd = 12,
    BodyAtEnd = 13,
    ListAtEnd = 14,
    InList = 15,
    NameAfterType = 16,
    PathAfterUse = 17,
    CompoundAtEnd = 18,
    Compound = 19,
    CharacterLost = 20,
    AssemblyNotClosed = 21,
}

impl From<ParseError> for usize {
    ghost from_gives = { ParseErrorNumber };

    fn from(error: ParseError) -> usize {
        error as usize
    }
}
