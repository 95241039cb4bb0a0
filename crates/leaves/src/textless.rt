// The functions that look at no text, on the records alone: the separator of a list, the end of a group.
ghost use Rattle.definition.specs.Numbers.{kind_number};
ghost use Rattle.steps.specs.Records.{Asks};
ghost use Rattle.leaves.specs.Records.{Commas, Closed};

use definition::kind::Kind;
use definition::parse_error::ParseError;
use definition::place::Place;
use definition::refusal::Refusal;
use fallible::error::Error;
use fallible::parser::Parser;
use fallible::{Stop, recover};
use steps::textless::expect;
use steps::tokens::Records;

// Parses the separator after a list item: a comma; the closer or the end is left; another token is an error.
pub fn comma(records: Records, parser: &mut Parser, close: Kind) -> Result<(), Refusal>
    requires { Asks records parser }
    ensures { Commas (kind_number close) records parser result }
{
    let t = records.peek(parser.state.at);
    if let Kind::Comma = t.kind {
        parser.state.at = t.next;
        return Ok(());
    }
    if t.kind == close {
        return Ok(());
    }
    if let Kind::End = t.kind {
        return Ok(());
    }
    parser.state.at = t.next;
    let error = Error::new(ParseError::InList, t.place, Kind::End, t.kind);
    parser.note(records.count, error)
}

// Parses the `)` of a group. Keeps the item and errors of `called`, also if it is fatal, and adds the errors of the `)`.
pub fn close(
    records: Records,
    parser: &mut Parser,
    called: Result<Place, Stop>,
) -> Result<Place, Stop>
    requires { Asks records parser }
    ensures { Closed records parser called result }
{
    recover(called)?;
    recover(expect(records, parser, Kind::RParen))?;
    called
}
