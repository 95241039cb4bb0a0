// Functions of parser.rs that call none of the four counted ones: parts of lists, levels, literals, sizes, groups.
#![tactic(auto)]

pub mod textless;

ghost use Rattle.std.specs.Prelude.{◌≡◌, ℕ, ◌+◌, ◌<◌, ◌≤◌, length};
ghost use Rattle.definition.specs.Numbers.{kind_number};
ghost use Rattle.definition.specs.Parser as P;
ghost use Rattle.definition.specs.Token.{digit};
ghost use Rattle.definition.specs.Slices.{at_entry};
ghost use Rattle.node.specs.Put.{placed};
ghost use Rattle.leaves.specs.Leaves.{is_arithmetic, listed_of, size_in, level_of, operator_of, number_of, prefixes, identifier, name_in, is_name_alone};
ghost use Rattle.steps.specs.Contract.{Asks, Parses};
ghost use Rattle.leaves.specs.Contract.{Counted, Literal, Commas, Closed, WritesNode};

use definition::kind::Kind;
use definition::parse_error::ParseError;
use definition::place::Place;
use definition::refusal::Refusal;
use definition::tag::Tag;
use fallible::Stop;
use fallible::error::Error;
use fallible::parser::{Parser, State};
use node::Numbers;
use steps::tokens::{Token, Tokens};
use steps::write_text_node;

// The kinds of lists that parse_bounded_list_of parses. An enum, as the project asks; the Rust takes a closure.
#[derive(Clone, Copy)]
pub enum Listed {
    Parameters,
    Arguments,
    StructFields,
    ArrayValues,
    StructValues,
}

// The levels of parse_arithmetic_binop, the loosest first. The Rust takes a table and a closure; by an enum the loop's
// contract names the level, as the definition does (`Operators`).
#[derive(Clone, Copy)]
pub enum Level {
    BitwiseOr,
    BitwiseXor,
    BitwiseAnd,
    BitShift,
    AddSub,
    Mul,
}

impl Listed {
    // The kinds of the tokens that open and close a list.
    pub fn brackets(self) -> (Kind, Kind)
        ensures { ((kind_number result.0 ≡ P.opener (listed_of self)) × (0 < kind_number result.0)) × (kind_number result.1 ≡ P.closer (listed_of self)) }
    {
        match self {
            Listed::Parameters | Listed::Arguments => (Kind::LParen, Kind::RParen),
            Listed::StructFields | Listed::StructValues => (Kind::LBrace, Kind::RBrace),
            Listed::ArrayValues => (Kind::LBracket, Kind::RBracket),
        }
    }
}

// Counts an item: one more if it was parsed.
pub fn counted(item: Option<Place>, count: usize) -> usize
    requires { count < 65536 }
    ensures { Counted item count result }
{
    match item {
        Some(_) => count + 1,
        None => count,
    }
}

// `textless::comma`, of tokens with their text.
#[inline(always)]
pub fn comma(tokens: Tokens, parser: &mut Parser, close: Kind) -> Result<(), Refusal>
    requires { Asks tokens parser }
    ensures { Commas (kind_number close) tokens parser result }
{
    textless::comma(tokens.records(), parser, close)
}

// The value of a digit of any base.
fn digit_value(c: u8) -> usize
    ensures { result ≡ digit c }
{
    let value = match c {
        0..=b'9' => c.saturating_sub(b'0'),
        b':'..=b'Z' => c - 55,
        _ => c - 87,
    };
    value as usize
}

// `usize::from_str_radix`: the value of a text in a base; none after a dash, or of 2^64 and more. The base is the number
// itself, as there. The library's takes a `&str`, and that a token's text is UTF-8 is no fact of `Tokens`.
pub fn array_size(text: &[u8], base: u32) -> Option<usize>
    requires { 0 < base }
    ensures { result ≡ size_in base text.now }
{
    if let [b'-', ..] = text {
        return None;
    }
    let mut number: usize = 0;
    for c in text {
        number = number
            .checked_mul(base as usize)?
            .checked_add(digit_value(*c))?;
    }
    Some(number)
}

// The operator of a level for a kind: its position in `ArithmeticBinOp`, which is all that the record has of it. So it has
// no enum, and no more has that of a comparison.
pub fn operator(level: Level, k: Kind) -> Option<u8>
    ensures { result ≡ operator_of (P.mapping (level_of level)) (kind_number k) }
{
    match level {
        Level::BitwiseOr => match k {
            Kind::Bar => Some(5),
            _ => None,
        },
        Level::BitwiseXor => match k {
            Kind::Caret => Some(4),
            _ => None,
        },
        Level::BitwiseAnd => match k {
            Kind::Ampersand => Some(3),
            _ => None,
        },
        Level::BitShift => match k {
            Kind::LeftShift => Some(6),
            Kind::RightShift => Some(7),
            _ => None,
        },
        Level::AddSub => match k {
            Kind::Plus => Some(0),
            Kind::Minus => Some(1),
            _ => None,
        },
        Level::Mul => match k {
            Kind::Star => Some(2),
            _ => None,
        },
    }
}

// The tightest first.
pub const LEVELS: [Level; 6] = [
    Level::Mul,
    Level::AddSub,
    Level::BitShift,
    Level::BitwiseAnd,
    Level::BitwiseXor,
    Level::BitwiseOr,
];

// Whether a kind is an operator of some level: one test for all, since most operands have no operator after them.
pub fn arithmetic(k: Kind) -> bool
    ensures { result ≡ is_arithmetic (kind_number k) }
{
    matches!(
        k,
        Kind::Bar
            | Kind::Caret
            | Kind::Ampersand
            | Kind::LeftShift
            | Kind::RightShift
            | Kind::Plus
            | Kind::Minus
            | Kind::Star
    )
}

// The comparison for a kind: its position in `ComparisonBinOp`.
pub fn comparison_operator(k: Kind) -> Option<u8>
    ensures { result ≡ operator_of P.comparisons (kind_number k) }
{
    match k {
        Kind::DoubleEquals => Some(0),
        Kind::LAngle => Some(3),
        Kind::LAngleEquals => Some(4),
        Kind::RAngle => Some(1),
        Kind::RAngleEquals => Some(2),
        _ => None,
    }
}

// The tag of the prefix operator of a kind.
pub fn prefix(k: Kind) -> Option<Tag>
    ensures { number_of result ≡ operator_of prefixes (kind_number k) }
{
    match k {
        Kind::Ampersand => Some(Tag::PointerTake),
        Kind::Star => Some(Tag::PointerDereference),
        Kind::Tilde => Some(Tag::BitwiseNot),
        Kind::Bang => Some(Tag::BooleanNot),
        _ => None,
    }
}

// Consumes the token `t` and writes its record, with the given text.
pub fn leaf(
    file: &mut [u8],
    state: &mut State,
    t: Token<'_>,
    tag: Tag,
    numbers: Numbers,
    text: &[u8],
) -> Place
    requires { state.old.pos + 16 + length text.now ≤ length file.old }
    ensures { WritesNode (placed t.entry.place tag numbers (at_entry text)) file t state result }
{
    state.at = t.next;
    write_text_node(file, state, t.place, tag, numbers, text)
}

// Consumes an identifier and writes its record.
pub fn name(file: &mut [u8], state: &mut State, t: Token<'_>) -> Place
    requires { state.old.pos + 16 + length t.text.now ≤ length file.old }
    ensures { WritesNode (identifier t.entry) file t state result }
{
    leaf(file, state, t, Tag::Identifier, Numbers::None, t.text)
}

// The name that a token gives: its text, or `<?>` if it is no identifier.
pub fn name_of(t: Token<'_>) -> &[u8]
    ensures { result.now ≡ name_in t.entry }
{
    match t.kind {
        Kind::Identifier => t.text,
        _ => b"<?>",
    }
}

// Whether the kind `k` is an identifier and `next`, the kind after it, neither a suffix nor the `(` of a call.
pub fn name_alone(k: Kind, next: Kind) -> bool
    ensures { result ≡ is_name_alone (kind_number k) (kind_number next) }
{
    matches!(k, Kind::Identifier)
        && !matches!(
            next,
            Kind::Dot | Kind::DotStar | Kind::LBracket | Kind::LParen
        )
}

// parse_atom without its group: integer | identifier | string | `true` | `false`
pub fn literal(tokens: Tokens, file: &mut [u8], parser: &mut Parser) -> Result<Place, Stop>
    requires { Literal tokens file parser }
    ensures { (d : ℕ) → Parses P.parse_atom tokens file parser d result }
{
    let t = tokens.peek(parser.state.at);
    let state = &mut parser.state;
    match t.kind {
        Kind::Integer => {
            let base = Numbers::Byte((t.base % 256) as u8);
            Ok(leaf(file, state, t, Tag::Integer, base, t.text))
        }
        Kind::Identifier => Ok(name(file, state, t)),
        Kind::String => Ok(leaf(file, state, t, Tag::String, Numbers::None, t.text)),
        Kind::KwTrue => Ok(leaf(file, state, t, Tag::Boolean, Numbers::Byte(1), &[])),
        Kind::KwFalse => Ok(leaf(file, state, t, Tag::Boolean, Numbers::Byte(0), &[])),
        Kind::End => {
            state.at = t.next;
            let error = Error::at_end(ParseError::ExpressionAtEnd);
            Err(parser.raise(tokens.count, error))
        }
        _ => {
            state.at = t.next;
            let error = Error::new(ParseError::Expression, t.place, Kind::End, t.kind);
            Err(parser.raise(tokens.count, error))
        }
    }
}

// `textless::close`, of tokens with their text.
#[inline(always)]
pub fn close(
    tokens: Tokens,
    parser: &mut Parser,
    called: Result<Place, Stop>,
) -> Result<Place, Stop>
    requires { Asks tokens parser }
    ensures { Closed tokens parser called result }
{
    textless::close(tokens.records(), parser, called)
}
