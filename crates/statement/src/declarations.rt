// Compounds and declarations: the functions of parser.rs that statements and items share.
ghost use Rattle.definition.specs.Numbers.{tag_number};
ghost use Rattle.definition.specs.Parser as P;
ghost use Rattle.definition.specs.Places.{place_of};
ghost use Rattle.steps.specs.Contract.{Asked, Parses};
ghost use Rattle.statement.specs.Contract.{Valued, ReadsDeclared};

use definition::kind::Kind;
use definition::parse_error::ParseError;
use definition::place::Place;
use definition::tag::Tag;
use expression::{expression, list, typed_name};
use fallible::error::Error;
use fallible::parser::Parser;
use fallible::{Stop, abandon};
use leaves::{Listed, name_of};
use node::{Numbers, Record, write_record};
use steps::tokens::Tokens;
use steps::{expect, expect_after, write_node, write_text_node};

// parse_compound: `#` (array values | struct values)
pub fn compound(
    tokens: Tokens,
    file: &mut [u8],
    parser: &mut Parser,
    nesting: usize,
) -> Result<Place, Stop>
    requires { Asked tokens file parser }
    ensures { Parses P.parse_compound tokens file parser nesting result }
{
    expect(tokens, parser, Kind::Hash)?;
    let t = tokens.peek(parser.state.at);
    let (what, tag) = match t.kind {
        Kind::LBracket => (Listed::ArrayValues, Tag::CompoundArray),
        Kind::LBrace => (Listed::StructValues, Tag::CompoundStruct),
        Kind::End => {
            let error = Error::at_end(ParseError::CompoundAtEnd);
            return Err(parser.raise(tokens.count, error));
        }
        _ => {
            let error = Error::new(ParseError::Compound, t.place, Kind::End, t.kind);
            return Err(parser.raise(tokens.count, error));
        }
    };
    let count = list(tokens, file, parser, what, nesting)?;
    let numbers = Numbers::Two(count);
    Ok(write_node(file, &mut parser.state, t.place, tag, numbers))
}

// The tags of a record after a value: an expression, a compound, or nothing.
#[derive(Clone, Copy)]
pub struct Tags {
    pub expression: Tag,
    pub compound: Tag,
    pub nothing: Tag,
}

// Parses [`=` expression | `<-` compound]. Gives its answer, which for nothing has no place, and the tag.
pub fn optional_value(
    tokens: Tokens,
    file: &mut [u8],
    parser: &mut Parser,
    tags: Tags,
    nesting: usize,
) -> (Result<Place, Stop>, Tag)
    requires { Asked tokens file parser }
    ensures { Valued tags tokens file parser nesting result }
{
    let t = tokens.peek(parser.state.at);
    match t.kind {
        Kind::Equals => {
            parser.state.at = t.next;
            (expression(tokens, file, parser, nesting), tags.expression)
        }
        Kind::LArrow => {
            parser.state.at = t.next;
            (compound(tokens, file, parser, nesting), tags.compound)
        }
        _ => (Ok(Place::NOWHERE), tags.nothing),
    }
}

// parse_var_like_declaration: typed_name [`=` expression | `<-` compound]. The caller takes the name from the first token.
// It gives no place, since no caller asks for one.
fn var_like_declaration(
    tokens: Tokens,
    file: &mut [u8],
    parser: &mut Parser,
    nesting: usize,
) -> Result<Place, Stop>
    requires { Asked tokens file parser }
    ensures { ReadsDeclared tokens file parser nesting result }
{
    let from = parser.state;
    typed_name(tokens, file, parser, nesting)?;
    let before = parser.state;
    let tags = Tags {
        expression: Tag::AssignedValue,
        compound: Tag::CompoundValue,
        nothing: Tag::NoValue,
    };
    let (value, tag) = optional_value(tokens, file, parser, tags, nesting);
    abandon(&mut parser.reported, &mut parser.state, value, from, before)?;
    let record = Record {
        tag,
        place: None,
        numbers: Numbers::None,
        text: &[],
    };
    parser.state.pos = write_record(file, parser.state.pos, record);
    Ok(Place::NOWHERE)
}

// Parses a declaration after `var`: var_like_declaration `;`
pub fn declaration(
    tokens: Tokens,
    file: &mut [u8],
    parser: &mut Parser,
    tag: Tag,
    place: Place,
    nesting: usize,
) -> Result<Place, Stop>
    requires { Asked tokens file parser }
    ensures { Parses (P.declaration (tag_number tag) (place_of place)) tokens file parser nesting result }
{
    let from = parser.state;
    let t = tokens.peek(from.at);
    var_like_declaration(tokens, file, parser, nesting)?;
    expect_after(tokens, parser, Kind::Semicolon, from)?;
    let name = name_of(t);
    Ok(write_text_node(file, &mut parser.state, place, tag, Numbers::None, name))
}
