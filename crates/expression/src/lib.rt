// Expressions, types and the lists in them: the functions of parser.rs that call one another in a cycle.
// The loops go on by a token: how many a turn consumes only its parser knows, so no iterator gives the turns.
#![tactic(auto)]

ghost use Rattle.std.specs.Prelude.{◌≡◌, ◌≤◌};
ghost use Rattle.definition.specs.Numbers.{tag_number};
ghost use Rattle.definition.specs.Parser as P;
ghost use Rattle.leaves.specs.Leaves.{listed_of, level_of};
ghost use Rattle.definition.specs.Places.{place_of};
ghost use Rattle.expression_laws.specs.Post.{operators_on};
ghost use Rattle.steps.specs.Contract.{Asked, GoesOn, Parses, ParsesOn};
ghost use Rattle.expression_laws.specs.Contract.{NameRoom, BareNamed, ReadsTyped, TypedOn, ReadsList};

use definition::kind::Kind;
use definition::parse_error::ParseError;
use definition::place::Place;
use definition::refusal::Refusal;
use definition::tag::Tag;
use fallible::error::Error;
use fallible::parser::{Parser, State};
use fallible::{Stop, abandon, recover};
use leaves::{
    LEVELS, Level, Listed, arithmetic, array_size, close, comma, comparison_operator, counted,
    literal, name, name_alone, name_of, operator, prefix,
};
use node::{Numbers, Record, write_record};
use steps::tokens::Tokens;
use steps::{expect, expect_after, expect_identifier, write_node, write_text_node};

// parse_expression, one of the four functions whose open calls are counted: refuses where `nesting` is 0. Each of the four
// makes the test itself, since one function for it would have to give what is left, in a line as long.
#[cycle(expression)]
pub fn expression(
    tokens: Tokens,
    file: &mut [u8],
    parser: &mut Parser,
    nesting: usize,
) -> Result<Place, Stop>
    requires { Asked tokens file parser }
    ensures { Parses P.parse_expression tokens file parser nesting result }
{
    if nesting == 0 {
        return Err(parser.state.refuse(tokens.count, Refusal::Nesting));
    }
    boolean(tokens, file, parser, nesting - 1)
}

// The levels are functions that call one another, as the project asks, and not one with the level as a parameter.

// parse_boolean_combinator: comparison [`&&` comparison]
#[cycle(expression)]
fn boolean(
    tokens: Tokens,
    file: &mut [u8],
    parser: &mut Parser,
    nesting: usize,
) -> Result<Place, Stop>
    requires { Asked tokens file parser }
    ensures { Parses P.expression_rule tokens file parser nesting result }
{
    let from = parser.state;
    let place = comparison(tokens, file, parser, nesting)?;
    let before = parser.state;
    let t = tokens.peek(before.at);
    let Kind::DoubleAmpersand = t.kind else {
        return Ok(place);
    };
    parser.state.at = t.next;
    let second = comparison(tokens, file, parser, nesting);
    abandon(
        &mut parser.reported,
        &mut parser.state,
        second,
        from,
        before,
    )?;
    let tag = Tag::BooleanAnd;
    Ok(write_node(file, &mut parser.state, t.place, tag, Numbers::None))
}

// parse_comparison: bit_or [(`==` | `<` | `<=` | `>` | `>=`) bit_or]
#[cycle(expression)]
fn comparison(
    tokens: Tokens,
    file: &mut [u8],
    parser: &mut Parser,
    nesting: usize,
) -> Result<Place, Stop>
    requires { Asked tokens file parser }
    ensures { Parses P.parse_comparison tokens file parser nesting result }
{
    let from = parser.state;
    let place = bit_or(tokens, file, parser, nesting)?;
    let before = parser.state;
    let t = tokens.peek(before.at);
    let Some(op) = comparison_operator(t.kind) else {
        return Ok(place);
    };
    parser.state.at = t.next;
    let second = bit_or(tokens, file, parser, nesting);
    abandon(
        &mut parser.reported,
        &mut parser.state,
        second,
        from,
        before,
    )?;
    let tag = Tag::ComparisonBinOp;
    Ok(write_node(file, &mut parser.state, t.place, tag, Numbers::Byte(op)))
}

// parse_bitwise_or: bit_xor {`|` bit_xor}. The six levels share their first operand, so it is parsed once; if an
// operator of a level follows, the loop of each level continues the answer of the level below, the tightest first.
#[cycle(expression)]
fn bit_or(
    tokens: Tokens,
    file: &mut [u8],
    parser: &mut Parser,
    nesting: usize,
) -> Result<Place, Stop>
    requires { Asked tokens file parser }
    ensures { Parses P.parse_bitwise_or tokens file parser nesting result }
{
    let from = parser.state;
    let mut place = cast(tokens, file, parser, nesting)?;
    let t = tokens.peek(parser.state.at);
    if !arithmetic(t.kind) {
        return Ok(place);
    }
    for level in &LEVELS {
        place = operators(tokens, file, parser, *level, place, from, nesting)?;
    }
    Ok(place)
}

// parse_bitwise_xor: bit_and {`^` bit_and}
#[cycle(expression)]
fn bit_xor(
    tokens: Tokens,
    file: &mut [u8],
    parser: &mut Parser,
    nesting: usize,
) -> Result<Place, Stop>
    requires { Asked tokens file parser }
    ensures { Parses P.parse_bitwise_xor tokens file parser nesting result }
{
    let from = parser.state;
    let first = bit_and(tokens, file, parser, nesting)?;
    operators(
        tokens,
        file,
        parser,
        Level::BitwiseXor,
        first,
        from,
        nesting,
    )
}

// parse_bitwise_and: shift {`&` shift}
#[cycle(expression)]
fn bit_and(
    tokens: Tokens,
    file: &mut [u8],
    parser: &mut Parser,
    nesting: usize,
) -> Result<Place, Stop>
    requires { Asked tokens file parser }
    ensures { Parses P.parse_bitwise_and tokens file parser nesting result }
{
    let from = parser.state;
    let first = shift(tokens, file, parser, nesting)?;
    operators(
        tokens,
        file,
        parser,
        Level::BitwiseAnd,
        first,
        from,
        nesting,
    )
}

// parse_bit_shift: add_sub {(`<<` | `>>`) add_sub}
#[cycle(expression)]
fn shift(
    tokens: Tokens,
    file: &mut [u8],
    parser: &mut Parser,
    nesting: usize,
) -> Result<Place, Stop>
    requires { Asked tokens file parser }
    ensures { Parses P.parse_bit_shift tokens file parser nesting result }
{
    let from = parser.state;
    let first = add_sub(tokens, file, parser, nesting)?;
    operators(tokens, file, parser, Level::BitShift, first, from, nesting)
}

// parse_add_sub: mul {(`+` | `-`) mul}
#[cycle(expression)]
fn add_sub(
    tokens: Tokens,
    file: &mut [u8],
    parser: &mut Parser,
    nesting: usize,
) -> Result<Place, Stop>
    requires { Asked tokens file parser }
    ensures { Parses P.parse_add_sub tokens file parser nesting result }
{
    let from = parser.state;
    let first = mul(tokens, file, parser, nesting)?;
    operators(tokens, file, parser, Level::AddSub, first, from, nesting)
}

// parse_mul: cast {`*` cast}
#[cycle(expression)]
fn mul(tokens: Tokens, file: &mut [u8], parser: &mut Parser, nesting: usize) -> Result<Place, Stop>
    requires { Asked tokens file parser }
    ensures { Parses P.parse_mul tokens file parser nesting result }
{
    let from = parser.state;
    let first = cast(tokens, file, parser, nesting)?;
    operators(tokens, file, parser, Level::Mul, first, from, nesting)
}

// Parses an operand of a level: the next tighter level, or a cast.
#[cycle(expression)]
fn cascade(
    tokens: Tokens,
    file: &mut [u8],
    parser: &mut Parser,
    level: Level,
    nesting: usize,
) -> Result<Place, Stop>
    requires { Asked tokens file parser }
    ensures { Parses (P.cascade (level_of level)) tokens file parser nesting result }
{
    match level {
        Level::BitwiseOr => bit_xor(tokens, file, parser, nesting),
        Level::BitwiseXor => bit_and(tokens, file, parser, nesting),
        Level::BitwiseAnd => shift(tokens, file, parser, nesting),
        Level::BitShift => add_sub(tokens, file, parser, nesting),
        Level::AddSub => mul(tokens, file, parser, nesting),
        Level::Mul => cast(tokens, file, parser, nesting),
    }
}

// The loop of parse_arithmetic_binop: {operator operand}, after the node at `first`.
#[cycle(expression)]
fn operators(
    tokens: Tokens,
    file: &mut [u8],
    parser: &mut Parser,
    level: Level,
    first: Place,
    from: State,
    nesting: usize,
) -> Result<Place, Stop>
    requires { GoesOn tokens file parser first from }
    ensures { ParsesOn (operators_on (level_of level)) tokens file parser first from nesting result }
{
    let mut place = first;
    loop {
        let before = parser.state;
        let t = tokens.peek(before.at);
        let Some(op) = operator(level, t.kind) else {
            return Ok(place);
        };
        parser.state.at = t.next;
        let second = cascade(tokens, file, parser, level, nesting);
        abandon(
            &mut parser.reported,
            &mut parser.state,
            second,
            from,
            before,
        )?;
        let tag = Tag::ArithmeticBinOp;
        place = write_node(file, &mut parser.state, t.place, tag, Numbers::Byte(op));
    }
}

// parse_cast: unary {`as` type}
#[cycle(expression)]
fn cast(tokens: Tokens, file: &mut [u8], parser: &mut Parser, nesting: usize) -> Result<Place, Stop>
    requires { Asked tokens file parser }
    ensures { Parses P.parse_cast tokens file parser nesting result }
{
    let from = parser.state;
    let mut place = operand(tokens, file, parser, nesting)?;
    loop {
        let before = parser.state;
        let t = tokens.peek(before.at);
        let Kind::KwAs = t.kind else {
            return Ok(place);
        };
        parser.state.at = t.next;
        let to = ty(tokens, file, parser, nesting);
        abandon(&mut parser.reported, &mut parser.state, to, from, before)?;
        place = write_node(file, &mut parser.state, t.place, Tag::Cast, Numbers::None);
    }
}

// unary. A name with no suffix and no call, the most common operand, is written at once.
#[cycle(expression)]
fn operand(
    tokens: Tokens,
    file: &mut [u8],
    parser: &mut Parser,
    nesting: usize,
) -> Result<Place, Stop>
    requires { Asked tokens file parser }
    ensures { Parses P.parse_unary tokens file parser nesting result }
{
    let t = tokens.peek(parser.state.at);
    let u = tokens.peek(t.next);
    if (nesting == 0) | !name_alone(t.kind, u.kind) {
        return unary(tokens, file, parser, nesting);
    }
    Ok(name(file, &mut parser.state, t))
}

// parse_unary: (`&` | `*` | `~` | `!`) unary | call. Open calls are counted.
#[cycle(expression)]
fn unary(
    tokens: Tokens,
    file: &mut [u8],
    parser: &mut Parser,
    nesting: usize,
) -> Result<Place, Stop>
    requires { Asked tokens file parser }
    ensures { Parses P.parse_unary tokens file parser nesting result }
{
    if nesting == 0 {
        return Err(parser.state.refuse(tokens.count, Refusal::Nesting));
    }
    let t = tokens.peek(parser.state.at);
    let Some(tag) = prefix(t.kind) else {
        return call(tokens, file, parser, nesting - 1);
    };
    parser.state.at = t.next;
    let place = unary(tokens, file, parser, nesting - 1)?;
    Ok(write_node(file, &mut parser.state, place, tag, Numbers::None))
}

// parse_call: sizeof [arguments]. Errors in the arguments are not reported.
#[cycle(expression)]
fn call(tokens: Tokens, file: &mut [u8], parser: &mut Parser, nesting: usize) -> Result<Place, Stop>
    requires { Asked tokens file parser }
    ensures { Parses P.parse_call tokens file parser nesting result }
{
    let place = sizeof(tokens, file, parser, nesting)?;
    let reported = parser.state.reported;
    let t = tokens.peek(parser.state.at);
    let Kind::LParen = t.kind else {
        return Ok(place);
    };
    let arguments = list(tokens, file, parser, Listed::Arguments, nesting);
    parser.state.reported = reported;
    let numbers = Numbers::Two(arguments?);
    Ok(write_node(file, &mut parser.state, place, Tag::Call, numbers))
}

// parse_sizeof: `sizeof` `(` type `)` | field_access_or_index
#[cycle(expression)]
fn sizeof(
    tokens: Tokens,
    file: &mut [u8],
    parser: &mut Parser,
    nesting: usize,
) -> Result<Place, Stop>
    requires { Asked tokens file parser }
    ensures { Parses P.parse_sizeof tokens file parser nesting result }
{
    let from = parser.state;
    let t = tokens.peek(from.at);
    let Kind::KwSizeof = t.kind else {
        return access(tokens, file, parser, nesting);
    };
    parser.state.at = t.next;
    expect(tokens, parser, Kind::LParen)?;
    ty(tokens, file, parser, nesting)?;
    expect_after(tokens, parser, Kind::RParen, from)?;
    Ok(write_node(file, &mut parser.state, t.place, Tag::Sizeof, Numbers::None))
}

// parse_field_access_or_index: atom {`.` name | `.*` | `[` expression `]`}
#[cycle(expression)]
fn access(
    tokens: Tokens,
    file: &mut [u8],
    parser: &mut Parser,
    nesting: usize,
) -> Result<Place, Stop>
    requires { Asked tokens file parser }
    ensures { Parses P.parse_field_access_or_index tokens file parser nesting result }
{
    let from = parser.state;
    let mut place = atom(tokens, file, parser, nesting)?;
    loop {
        let before = parser.state;
        let t = tokens.peek(before.at);
        match t.kind {
            Kind::Dot => {
                let u = tokens.peek(t.next);
                if let Kind::End = u.kind {
                    return Err(parser.state.refuse(tokens.count, Refusal::EndAfterWord));
                }
                parser.state.at = u.next;
                let Kind::Identifier = u.kind else {
                    let error = Error::at(ParseError::Identifier, u.place);
                    parser.note(tokens.count, error)?;
                    return Ok(place);
                };
                let (tag, numbers) = (Tag::FieldAccess, Numbers::None);
                place = write_text_node(file, &mut parser.state, t.place, tag, numbers, u.text);
            }
            Kind::DotStar => {
                parser.state.at = t.next;
                let tag = Tag::PointerDereference;
                place = write_node(file, &mut parser.state, t.place, tag, Numbers::None);
            }
            Kind::LBracket => {
                parser.state.at = t.next;
                let index = expression(tokens, file, parser, nesting);
                abandon(&mut parser.reported, &mut parser.state, index, from, before)?;
                expect_after(tokens, parser, Kind::RBracket, from)?;
                place = write_node(file, &mut parser.state, t.place, Tag::Index, Numbers::None);
            }
            _ => return Ok(place),
        }
    }
}

// parse_atom: literal | `(` expression `)`
#[cycle(expression)]
fn atom(tokens: Tokens, file: &mut [u8], parser: &mut Parser, nesting: usize) -> Result<Place, Stop>
    requires { Asked tokens file parser }
    ensures { Parses P.parse_atom tokens file parser nesting result }
{
    let t = tokens.peek(parser.state.at);
    let Kind::LParen = t.kind else {
        return literal(tokens, file, parser);
    };
    parser.state.at = t.next;
    let a = expression(tokens, file, parser, nesting);
    close(tokens, parser, a)
}

// ---- names

// Writes a record without a place, with the name that the token at index `at` gives.
fn bare_name(tokens: Tokens, file: &mut [u8], state: &mut State, tag: Tag, at: usize)
    requires { NameRoom tokens file state at }
    ensures { BareNamed tokens file state (tag_number tag) at }
{
    let t = tokens.peek(at);
    let record = Record {
        tag,
        place: None,
        numbers: Numbers::None,
        text: name_of(t),
    };
    state.pos = write_record(file, state.pos, record);
}

// ---- types

// parse_type: name | `*` type | `[` array | `struct` fields. Open calls are counted.
#[cycle(expression)]
pub fn ty(
    tokens: Tokens,
    file: &mut [u8],
    parser: &mut Parser,
    nesting: usize,
) -> Result<Place, Stop>
    requires { Asked tokens file parser }
    ensures { Parses P.parse_type tokens file parser nesting result }
{
    if nesting == 0 {
        return Err(parser.state.refuse(tokens.count, Refusal::Nesting));
    }
    let reported = parser.state.reported;
    let t = tokens.peek(parser.state.at);
    parser.state.at = t.next;
    match t.kind {
        Kind::Identifier => {
            let (tag, numbers) = (Tag::Name, Numbers::None);
            Ok(write_text_node(file, &mut parser.state, t.place, tag, numbers, t.text))
        }
        Kind::Star => {
            ty(tokens, file, parser, nesting - 1)?;
            Ok(write_node(
                file,
                &mut parser.state,
                t.place,
                Tag::Pointer,
                Numbers::None,
            ))
        }
        Kind::LBracket => array(tokens, file, parser, t.place, nesting - 1),
        Kind::KwStruct => {
            let fields = list(tokens, file, parser, Listed::StructFields, nesting - 1);
            parser.state.reported = reported;
            let numbers = Numbers::Two(fields?);
            Ok(write_node(file, &mut parser.state, t.place, Tag::Struct, numbers))
        }
        Kind::End => {
            let error = Error::at_end(ParseError::TypeAtEnd);
            Err(parser.raise(tokens.count, error))
        }
        _ => {
            let error = Error::new(ParseError::Type, t.place, Kind::End, t.kind);
            Err(parser.raise(tokens.count, error))
        }
    }
}

// Parses what follows the `[` of an array type: size `]` type. Errors in the size are at `place`.
#[cycle(expression)]
fn array(
    tokens: Tokens,
    file: &mut [u8],
    parser: &mut Parser,
    place: Place,
    nesting: usize,
) -> Result<Place, Stop>
    requires { Asked tokens file parser }
    ensures { Parses (P.parse_array_type (place_of place)) tokens file parser nesting result }
{
    let t = tokens.peek(parser.state.at);
    parser.state.at = t.next;
    let Kind::Integer = t.kind else {
        let error = Error::at(ParseError::ArraySize, place);
        return Err(parser.raise(tokens.count, error));
    };
    let Some(size) = array_size(t.text, t.base) else {
        let error = Error::at(ParseError::ArraySizePositive, place);
        return Err(parser.raise(tokens.count, error));
    };
    expect(tokens, parser, Kind::RBracket)?;
    ty(tokens, file, parser, nesting)?;
    Ok(write_node(
        file,
        &mut parser.state,
        place,
        Tag::Array,
        Numbers::Eight(size),
    ))
}

// Parses what follows the name of a typed identifier, `:` type, in a construct that began in the state `from`. The place
// that it gives is not used.
#[cycle(expression)]
fn typed(
    tokens: Tokens,
    file: &mut [u8],
    parser: &mut Parser,
    from: State,
    nesting: usize,
) -> Result<Place, Stop>
    requires { Asked tokens file parser × ((from.pos ≡ parser.now.state.pos) × (from.reported ≤ parser.now.state.reported)) }
    ensures { TypedOn tokens file parser from nesting result }
{
    expect_after(tokens, parser, Kind::Colon, from)?;
    let before = parser.state;
    let of = ty(tokens, file, parser, nesting);
    abandon(&mut parser.reported, &mut parser.state, of, from, before)
}

// parse_typed_identifier: name `:` type. The caller takes the name from the first token.
#[cycle(expression)]
pub fn typed_name(
    tokens: Tokens,
    file: &mut [u8],
    parser: &mut Parser,
    nesting: usize,
) -> Result<Place, Stop>
    requires { Asked tokens file parser }
    ensures { ReadsTyped tokens file parser nesting result }
{
    let from = parser.state;
    let t = tokens.peek(from.at);
    parser.state.at = t.next;
    match t.kind {
        Kind::Identifier => typed(tokens, file, parser, from, nesting),
        Kind::End => {
            let error = Error::at_end(ParseError::EndOfFile);
            Err(parser.raise(tokens.count, error))
        }
        _ => {
            let error = Error::at(ParseError::Identifier, t.place);
            parser.note(tokens.count, error)?;
            typed(tokens, file, parser, from, nesting)
        }
    }
}

// ---- lists

// A parameter, or a field of a struct type: typed_name and its record, which has no place.
#[cycle(expression)]
fn named(
    tokens: Tokens,
    file: &mut [u8],
    parser: &mut Parser,
    nesting: usize,
) -> Result<Place, Stop>
    requires { Asked tokens file parser }
    ensures { Parses P.parse_named_type tokens file parser nesting result }
{
    let at = parser.state.at;
    typed_name(tokens, file, parser, nesting)?;
    bare_name(tokens, file, &mut parser.state, Tag::NamedType, at);
    Ok(Place::NOWHERE)
}

// parse_compound_struct_field: name `=` expression
#[cycle(expression)]
fn field(
    tokens: Tokens,
    file: &mut [u8],
    parser: &mut Parser,
    nesting: usize,
) -> Result<Place, Stop>
    requires { Asked tokens file parser }
    ensures { Parses P.parse_compound_struct_field tokens file parser nesting result }
{
    let from = parser.state;
    let t = tokens.peek(from.at);
    let place = expect_identifier(tokens, parser)?;
    expect_after(tokens, parser, Kind::Equals, from)?;
    expression(tokens, file, parser, nesting)?;
    let (tag, numbers) = (Tag::CompoundField, Numbers::None);
    Ok(write_text_node(file, &mut parser.state, place, tag, numbers, t.text))
}

// Parses one item of a list.
#[cycle(expression)]
fn item(
    tokens: Tokens,
    file: &mut [u8],
    parser: &mut Parser,
    what: Listed,
    nesting: usize,
) -> Result<Place, Stop>
    requires { Asked tokens file parser }
    ensures { Parses (P.item (listed_of what)) tokens file parser nesting result }
{
    match what {
        Listed::Parameters | Listed::StructFields => named(tokens, file, parser, nesting),
        Listed::Arguments | Listed::ArrayValues => expression(tokens, file, parser, nesting),
        Listed::StructValues => field(tokens, file, parser, nesting),
    }
}

// parse_bounded_list_of: opener {item [`,`]} closer. Never fatal; gives the count of the items.
#[cycle(expression)]
pub fn list(
    tokens: Tokens,
    file: &mut [u8],
    parser: &mut Parser,
    what: Listed,
    nesting: usize,
) -> Result<usize, Refusal>
    requires { Asked tokens file parser }
    ensures { ReadsList (listed_of what) tokens file parser nesting result }
{
    let (open, close) = what.brackets();
    recover(expect(tokens, parser, open))?;
    let mut count = 0;
    loop {
        let t = tokens.peek(parser.state.at);
        if let Kind::End = t.kind {
            let error = Error::at_end(ParseError::ListAtEnd);
            parser.note(tokens.count, error)?;
            return Ok(count);
        }
        if t.kind == close {
            parser.state.at = t.next;
            return Ok(count);
        }
        let b = item(tokens, file, parser, what, nesting);
        let parsed = recover(b)?;
        comma(tokens, parser, close)?;
        count = counted(parsed, count);
    }
}
