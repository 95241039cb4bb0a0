// The losses of tokens, and the parse that begins with them in the full list.
ghost use Rattle.std.specs.Prelude.{◌≡◌};
ghost use Rattle.definition.specs.Losses as L;
ghost use Rattle.fallible.specs.Lists.{err_of};
ghost use Rattle.steps.specs.Contract.{Asked};
ghost use Rattle.parser.specs.Losses.{begun, token_of};
ghost use Rattle.parser.specs.Contract.{LossesEntered, TokensParsed};

use definition::kind::Kind;
use definition::limit;
use definition::parse_error::ParseError;
use definition::refusal::Refusal;
use fallible::error::Error;
use fallible::parser::Parser;
use items::module;
use steps::tokens::{Token, Tokens};

// The entry for a token that lost something: a Minus the character after it, assembly its end.
fn loss(token: Token) -> Error
    ensures { err_of result ≡ L.loss (token_of token.entry) }
{
    let error = if token.kind == Kind::Minus {
        ParseError::CharacterLost
    } else {
        ParseError::AssemblyNotClosed
    };
    Error::at(error, token.place)
}

// The word of a token's record that says whether it lost something.
const LOST: usize = 6;

// Enters the losses of the tokens in the full list. Refuses a 256th.
fn enter_losses(tokens: Tokens, parser: &mut Parser) -> Result<(), Refusal>
    requires { parser.old.state ≡ begun 0 }
    ensures { LossesEntered tokens parser result }
{
    for at in 0..tokens.count {
        if tokens.records[8 * at + LOST] == 1 {
            parser.enter(loss(tokens.peek(at)))?;
        }
    }
    Ok(())
}

// parse_module, with the losses of the tokens first in the full list.
pub fn parse_tokens(tokens: Tokens, file: &mut [u8], parser: &mut Parser) -> Result<usize, Refusal>
    requires { Asked tokens file parser × (parser.old.state ≡ begun 0) }
    ensures { TokensParsed tokens file parser result }
{
    enter_losses(tokens, parser)?;
    module(tokens, file, parser, limit::NESTING)
}
