// The steps that look at no text, on the records alone. Those of the same name in `lib.rt` take tokens with their text.
ghost use Rattle.std.specs.Prelude.{◌<◌};
ghost use Rattle.definition.specs.Numbers.{kind_number};
ghost use Rattle.definition.specs.Parser as P;
ghost use Rattle.steps.specs.Records.{Asks, Follows, Expects, Expected};

use crate::tokens::Records;
use definition::kind::Kind;
use definition::parse_error::ParseError;
use definition::place::Place;
use fallible::error::Error;
use fallible::parser::{Parser, State};
use fallible::{Stop, abandon};

// `expect`: consumes the next token. Another kind than `wanted`, or the end, is a fatal error. Always inlined, as its like on
// `Tokens`: a call stores the tokens and the place, and reads them back.
#[inline(always)]
pub fn expect(records: Records, parser: &mut Parser, wanted: Kind) -> Result<Place, Stop>
    requires { Asks records parser × (0 < kind_number wanted) }
    ensures { Expects (λ role. P.expect_as role (kind_number wanted)) records parser result }
{
    let t = records.peek(parser.state.at);
    parser.state.at = t.next;
    if t.kind == wanted {
        return Ok(t.place);
    }
    if let Kind::End = t.kind {
        let error = Error::new(ParseError::ExpectedAtEnd, Place::NOWHERE, wanted, Kind::End);
        return Err(parser.raise(records.count, error));
    }
    let error = Error::new(ParseError::Expected, t.place, wanted, t.kind);
    Err(parser.raise(records.count, error))
}

// `expect_identifier`: consumes the next token. Another kind than an identifier, or the end, is a fatal error. Apart from
// `expect`, since both errors are others.
pub fn expect_identifier(records: Records, parser: &mut Parser) -> Result<Place, Stop>
    requires { Asks records parser }
    ensures { Expects (λ role. P.expect_identifier) records parser result }
{
    let t = records.peek(parser.state.at);
    parser.state.at = t.next;
    match t.kind {
        Kind::Identifier => Ok(t.place),
        Kind::End => {
            let error = Error::at_end(ParseError::EndOfFile);
            Err(parser.raise(records.count, error))
        }
        _ => {
            let error = Error::at(ParseError::Identifier, t.place);
            Err(parser.raise(records.count, error))
        }
    }
}

// `expect(..)?` in a construct that began in the state `from`.
pub fn expect_after(
    records: Records,
    parser: &mut Parser,
    wanted: Kind,
    from: State,
) -> Result<Place, Stop>
    requires { Follows records parser from × (0 < kind_number wanted) }
    ensures { Expected (kind_number wanted) records parser from result }
{
    let before = parser.state;
    let token = expect(records, parser, wanted);
    abandon(&mut parser.reported, &mut parser.state, token, from, before)
}
