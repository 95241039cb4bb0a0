// Statements that contain no other statement.
ghost use Rattle.definition.specs.Parser as P;
ghost use Rattle.definition.specs.Places.{place_of};
ghost use Rattle.steps.specs.Contract.{Asked, Parses};
ghost use Rattle.statement.specs.Contract.{ParsesPaid};

use crate::declarations::{Tags, optional_value};
use definition::kind::Kind;
use definition::place::Place;
use definition::tag::Tag;
use expression::expression;
use fallible::parser::Parser;
use fallible::{Stop, abandon};
use node::Numbers;
use steps::tokens::Tokens;
use steps::{expect_after, write_node};

// Parses what follows `return`: [expression] `;`
pub fn return_statement(
    tokens: Tokens,
    file: &mut [u8],
    parser: &mut Parser,
    place: Place,
    nesting: usize,
) -> Result<Place, Stop>
    requires { Asked tokens file parser }
    ensures { ParsesPaid (P.parse_return (place_of place)) tokens file parser nesting result }
{
    let from = parser.state;
    let t = tokens.peek(from.at);
    if let Kind::Semicolon = t.kind {
        parser.state.at = t.next;
        let numbers = Numbers::Byte(0);
        return Ok(write_node(file, &mut parser.state, place, Tag::Return, numbers));
    }
    expression(tokens, file, parser, nesting)?;
    expect_after(tokens, parser, Kind::Semicolon, from)?;
    let numbers = Numbers::Byte(1);
    Ok(write_node(file, &mut parser.state, place, Tag::Return, numbers))
}

// expression [`=` expression | `<-` compound] `;`. If the first expression has errors, the statement ends with it.
pub fn expression_statement(
    tokens: Tokens,
    file: &mut [u8],
    parser: &mut Parser,
    place: Place,
    nesting: usize,
) -> Result<Place, Stop>
    requires { Asked tokens file parser }
    ensures { Parses (P.expression_statement (place_of place)) tokens file parser nesting result }
{
    let from = parser.state;
    expression(tokens, file, parser, nesting)?;
    let before = parser.state;
    if from.reported < before.reported {
        let tag = Tag::Expression;
        return Ok(write_node(file, &mut parser.state, place, tag, Numbers::None));
    }
    let tags = Tags {
        expression: Tag::Assignment,
        compound: Tag::CompoundAssignment,
        nothing: Tag::Expression,
    };
    let (value, tag) = optional_value(tokens, file, parser, tags, nesting);
    abandon(&mut parser.reported, &mut parser.state, value, from, before)?;
    expect_after(tokens, parser, Kind::Semicolon, from)?;
    Ok(write_node(file, &mut parser.state, place, tag, Numbers::None))
}
