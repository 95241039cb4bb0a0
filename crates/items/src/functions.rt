// Function definitions.
ghost use Rattle.std.specs.Prelude.{ℕ};
ghost use Rattle.definition.specs.Parser as P;
ghost use Rattle.definition.specs.Places.{place_of};
ghost use Rattle.steps.specs.Contract.{Asked, Parses};
ghost use Rattle.items.specs.Contract.{ReadsType, ReadsSignature, FunctionAsked, FunctionOn};

use definition::kind::Kind;
use definition::place::Place;
use definition::tag::Tag;
use expression::{list, ty};
use fallible::parser::{Parser, State};
use fallible::{Stop, abandon, exchange};
use leaves::Listed;
use node::Numbers;
use statement::body;
use steps::tokens::Tokens;
use steps::{expect, expect_after, expect_identifier, write_node, write_text_node};

// [`->` type]. Without an arrow the type is void, at `place`.
fn return_type(
    tokens: Tokens,
    file: &mut [u8],
    parser: &mut Parser,
    place: Place,
    nesting: usize,
) -> Result<Place, Stop>
    requires { Asked tokens file parser }
    ensures { ReadsType (place_of place) tokens file parser nesting result }
{
    let t = tokens.peek(parser.state.at);
    if let Kind::RArrow = t.kind {
        parser.state.at = t.next;
        return ty(tokens, file, parser, nesting);
    }
    Ok(write_node(file, &mut parser.state, place, Tag::Void, Numbers::None))
}

// parameters return_type. Gives the count of the parameters. Errors of the type are reported before those of the
// parameters; a fatal type drops the latter.
fn signature(
    tokens: Tokens,
    file: &mut [u8],
    parser: &mut Parser,
    place: Place,
    nesting: usize,
) -> Result<usize, Stop>
    requires { Asked tokens file parser }
    ensures { ReadsSignature (place_of place) tokens file parser nesting result }
{
    let from = parser.state;
    let count = list(tokens, file, parser, Listed::Parameters, nesting)?;
    let before = parser.state;
    let returned = return_type(tokens, file, parser, place, nesting);
    abandon(
        &mut parser.reported,
        &mut parser.state,
        returned,
        from,
        before,
    )?;
    exchange(
        &mut parser.reported,
        from.reported,
        before.reported,
        parser.state.reported,
    );
    Ok(count)
}

// What stands before the `;` or the body of a function that began in the state `from`: its name, and the count of its
// parameters.
#[derive(Clone, Copy)]
struct Head<'a> {
    place: Place,
    name: &'a [u8],
    count: usize,
    from: State,
}

// Parses the `;` of an external function and writes its record.
fn external_function(
    tokens: Tokens,
    file: &mut [u8],
    parser: &mut Parser,
    head: Head<'_>,
) -> Result<Place, Stop>
    requires { FunctionAsked tokens file parser head }
    ensures { (d : ℕ) → FunctionOn 1 tokens file parser head d result }
{
    expect_after(tokens, parser, Kind::Semicolon, head.from)?;
    Ok(write_text_node(
        file,
        &mut parser.state,
        head.place,
        Tag::FunctionDefinition,
        Numbers::ByteTwo(1, head.count),
        head.name,
    ))
}

// Parses the body of a function and writes its record. Errors of the body are reported before those of the signature.
fn whole_function(
    tokens: Tokens,
    file: &mut [u8],
    parser: &mut Parser,
    head: Head<'_>,
    nesting: usize,
) -> Result<Place, Stop>
    requires { FunctionAsked tokens file parser head }
    ensures { FunctionOn 0 tokens file parser head nesting result }
{
    let signed = parser.state;
    let statements = body(tokens, file, parser, nesting)?;
    exchange(
        &mut parser.reported,
        head.from.reported,
        signed.reported,
        parser.state.reported,
    );
    let block = Numbers::Two(statements);
    write_node(file, &mut parser.state, head.place, Tag::Block, block);
    Ok(write_text_node(
        file,
        &mut parser.state,
        head.place,
        Tag::FunctionDefinition,
        Numbers::ByteTwo(0, head.count),
        head.name,
    ))
}

// parse_function_definition: [`extern`] `fn` name signature (`;` | body), `;` where the function is external.
pub fn function_definition(
    tokens: Tokens,
    file: &mut [u8],
    parser: &mut Parser,
    nesting: usize,
) -> Result<Place, Stop>
    requires { Asked tokens file parser }
    ensures { Parses P.parse_function_definition tokens file parser nesting result }
{
    let t = tokens.peek(parser.state.at);
    let external = t.kind == Kind::KwExtern;
    if external {
        parser.state.at = t.next;
    }
    let from = parser.state;
    expect(tokens, parser, Kind::KwFn)?;
    let name = tokens.peek(parser.state.at).text;
    expect_identifier(tokens, parser)?;
    let place = t.place;
    let count = signature(tokens, file, parser, place, nesting)?;
    let head = Head {
        place,
        name,
        count,
        from,
    };
    if external {
        return external_function(tokens, file, parser, head);
    }
    whole_function(tokens, file, parser, head, nesting)
}
