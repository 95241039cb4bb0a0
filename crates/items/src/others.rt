// Type aliases, `use` and variables at the top level.
ghost use Rattle.std.specs.Prelude.{ℕ, ◌≤◌, false};
ghost use Rattle.definition.specs.Numbers.{kind_number, parse_error_number};
ghost use Rattle.definition.specs.Parser as P;
ghost use Rattle.definition.specs.Places.{place_of};
ghost use Rattle.items.specs.Items.{Modified, sum};
ghost use Rattle.items.specs.Rules.{alias_rule, path_rule};
ghost use Rattle.items.specs.Contract.{Named};
ghost use Rattle.steps.specs.Contract.{Asks, Asked, Parses};

use definition::kind::Kind;
use definition::parse_error::ParseError;
use definition::place::Place;
use definition::refusal::Refusal;
use definition::tag::Tag;
use expression::ty;
use fallible::Stop;
use fallible::error::Error;
use fallible::parser::Parser;
use node::Numbers;
use statement::declarations::declaration;
use steps::tokens::{Token, Tokens};
use steps::{expect, expect_after, write_text_node};

// The modifiers before `type`, and the index of the token after them.
#[derive(Clone, Copy)]
struct Modifiers {
    distinct: bool,
    internal: bool,
    next: usize,
}

impl Modifiers {
    // Parses {`distinct` | `internal`}, from the token at index `from` on. Tokens have no iterator, since the parser looks at
    // a token before it consumes it.
    fn read(tokens: Tokens, from: usize) -> Modifiers
        requires { from ≤ tokens.count }
        ensures { Modified tokens.entry.records.now tokens.entry.count false false from result }
    {
        let mut m = Modifiers {
            distinct: false,
            internal: false,
            next: from,
        };
        loop {
            let t = tokens.peek(m.next);
            match t.kind {
                Kind::KwDistinct => m.distinct = true,
                Kind::KwInternal => m.internal = true,
                _ => return m,
            }
            m.next = t.next;
        }
    }
}

// Consumes the token that names an item, after its word: refuses the end, and raises `error` for another kind than `kind`.
fn naming_token<'a>(
    tokens: Tokens<'a>,
    parser: &mut Parser,
    kind: Kind,
    error: ParseError,
) -> Result<Token<'a>, Stop>
    requires { Asks tokens parser }
    ensures { Named (kind_number kind) (parse_error_number error) tokens parser result }
{
    let t = tokens.peek(parser.state.at);
    if let Kind::End = t.kind {
        return Err(parser.state.refuse(tokens.count, Refusal::EndAfterWord));
    }
    parser.state.at = t.next;
    if t.kind == kind {
        return Ok(t);
    }
    Err(parser.raise(tokens.count, Error::at(error, t.place)))
}

// Parses an alias after `type`: name `=` type `;`. The number of the record is 1 for `distinct` plus 2 for `internal`.
fn alias(
    tokens: Tokens,
    file: &mut [u8],
    parser: &mut Parser,
    modifiers: Modifiers,
    place: Place,
    nesting: usize,
) -> Result<Place, Stop>
    requires { Asked tokens file parser }
    ensures { Parses (alias_rule (sum modifiers) (place_of place)) tokens file parser nesting result }
{
    let from = parser.state;
    let t = naming_token(tokens, parser, Kind::Identifier, ParseError::NameAfterType)?;
    expect(tokens, parser, Kind::Equals)?;
    ty(tokens, file, parser, nesting)?;
    expect_after(tokens, parser, Kind::Semicolon, from)?;
    let number = u8::from(modifiers.distinct) + 2 * u8::from(modifiers.internal);
    Ok(write_text_node(
        file,
        &mut parser.state,
        place,
        Tag::TypeAlias,
        Numbers::Byte(number),
        t.text,
    ))
}

// parse_type_alias: modifiers `type` alias
pub fn type_alias(
    tokens: Tokens,
    file: &mut [u8],
    parser: &mut Parser,
    nesting: usize,
) -> Result<Place, Stop>
    requires { Asked tokens file parser }
    ensures { Parses P.parse_type_alias tokens file parser nesting result }
{
    let at = parser.state.at;
    let t = tokens.peek(at);
    let modifiers = Modifiers::read(tokens, at);
    parser.state.at = modifiers.next;
    expect(tokens, parser, Kind::KwType)?;
    alias(tokens, file, parser, modifiers, t.place, nesting)
}

// Parses what follows `use`: string `;`.
fn path(tokens: Tokens, file: &mut [u8], parser: &mut Parser, place: Place) -> Result<Place, Stop>
    requires { Asked tokens file parser }
    ensures { (d : ℕ) → Parses (path_rule (place_of place)) tokens file parser d result }
{
    let t = naming_token(tokens, parser, Kind::String, ParseError::PathAfterUse)?;
    expect(tokens, parser, Kind::Semicolon)?;
    Ok(write_text_node(
        file,
        &mut parser.state,
        place,
        Tag::Use,
        Numbers::None,
        t.text,
    ))
}

// parse_use: `use` path
pub fn use_path(tokens: Tokens, file: &mut [u8], parser: &mut Parser) -> Result<Place, Stop>
    requires { Asked tokens file parser }
    ensures { (d : ℕ) → Parses P.parse_use tokens file parser d result }
{
    let t = tokens.peek(parser.state.at);
    expect(tokens, parser, Kind::KwUse)?;
    path(tokens, file, parser, t.place)
}

// parse_top_level_var_declaration: `var` declaration
pub fn top_level_var_declaration(
    tokens: Tokens,
    file: &mut [u8],
    parser: &mut Parser,
    nesting: usize,
) -> Result<Place, Stop>
    requires { Asked tokens file parser }
    ensures { Parses P.parse_top_level_var_declaration tokens file parser nesting result }
{
    let t = tokens.peek(parser.state.at);
    expect(tokens, parser, Kind::KwVar)?;
    declaration(
        tokens,
        file,
        parser,
        Tag::TopLevelVariable,
        t.place,
        nesting,
    )
}
