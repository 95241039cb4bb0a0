// The errors of the tokenizer.
ghost use Rattle.definition.specs.Numbers.{TokenErrorNumber, TokenErrorOf};

#[derive(Clone, Copy, PartialEq, Eq)]
pub enum TokenError {
    UnknownEscape = 1,
    UnclosedString = 2,
    NoAssembly = 3,
    UnknownCharacter = 4,
}

impl From<TokenError> for u32 {
    ghost from_gives = { TokenErrorNumber };

    fn from(error: TokenError) -> u32 {
        error as u32
    }
}

// A number that no token error has.
#[derive(Clone, Copy, PartialEq, Eq)]
pub struct NoTokenError(pub u32);

impl TryFrom<u32> for TokenError {
    type Error = NoTokenError;

    ghost try_from_gives = { TokenErrorOf };

    fn try_from(number: u32) -> Result<Self, NoTokenError> {
        match number {
            1 => Ok(TokenError::UnknownEscape),
            2 => Ok(TokenError::UnclosedString),
            3 => Ok(TokenError::NoAssembly),
            4 => Ok(TokenError::UnknownCharacter),
            _ => Err(NoTokenError(number)),
        }
    }
}
