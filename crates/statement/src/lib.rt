// Statements and bodies: the functions of parser.rs above expressions that call one another in a cycle.
#![tactic(auto)]

pub mod declarations;
mod simple;

ghost use Rattle.definition.specs.Parser as P;
ghost use Rattle.definition.specs.Places.{place_of};
ghost use Rattle.statement.specs.Rules.{guarded_rule};
ghost use Rattle.statement.specs.Post.{statements_on};
ghost use Rattle.steps.specs.Contract.{Asked, Parses};
ghost use Rattle.expression_laws.specs.Contract.{LoopOn};
ghost use Rattle.statement.specs.Contract.{ParsesPaid, ReadsBody};

use declarations::declaration;
use definition::kind::Kind;
use definition::parse_error::ParseError;
use definition::place::Place;
use definition::refusal::Refusal;
use definition::tag::Tag;
use expression::expression;
use fallible::error::Error;
use fallible::parser::Parser;
use fallible::{Stop, abandon, recover};
use leaves::{counted, leaf};
use node::Numbers;
use simple::{expression_statement, return_statement};
use steps::tokens::Tokens;
use steps::{expect, write_node};

// ---- bodies

// parse_body: `{` {statement} `}`. Never fatal; gives the count of the statements.
#[cycle(statement)]
pub fn body(
    tokens: Tokens,
    file: &mut [u8],
    parser: &mut Parser,
    nesting: usize,
) -> Result<usize, Refusal>
    requires { Asked tokens file parser }
    ensures { ReadsBody tokens file parser nesting result }
{
    match recover(expect(tokens, parser, Kind::LBrace))? {
        Some(_) => body_rest(tokens, file, parser, nesting),
        None => Ok(0),
    }
}

// The loop of parse_body, after `{`: {statement} `}`. Apart from the loops of a list and of a module: each ends in a way
// of its own, and a shared one would take closures for the item, for what stands between two, and for the end.
// No iterator: a turn consumes as many tokens as its statement has, and only the statement's parser knows how many.
#[cycle(statement)]
fn body_rest(
    tokens: Tokens,
    file: &mut [u8],
    parser: &mut Parser,
    nesting: usize,
) -> Result<usize, Refusal>
    requires { Asked tokens file parser }
    ensures { LoopOn statements_on 0 tokens file parser nesting result }
{
    let mut count = 0;
    loop {
        let t = tokens.peek(parser.state.at);
        if let Kind::RBrace = t.kind {
            parser.state.at = t.next;
            return Ok(count);
        }
        if let Kind::End = t.kind {
            let error = Error::at_end(ParseError::BodyAtEnd);
            parser.note(tokens.count, error)?;
            return Ok(count);
        }
        let parsed = recover(statement(tokens, file, parser, nesting))?;
        count = counted(parsed, count);
    }
}

// ---- statements

// A condition and the statement it guards: expression statement
#[cycle(statement)]
fn guarded(
    tokens: Tokens,
    file: &mut [u8],
    parser: &mut Parser,
    nesting: usize,
) -> Result<Place, Stop>
    requires { Asked tokens file parser }
    ensures { Parses guarded_rule tokens file parser nesting result }
{
    let from = parser.state;
    expression(tokens, file, parser, nesting)?;
    let before = parser.state;
    let inner = statement(tokens, file, parser, nesting);
    abandon(&mut parser.reported, &mut parser.state, inner, from, before)
}

// Parses what follows `if`: guarded [`else` statement]
#[cycle(statement)]
fn if_statement(
    tokens: Tokens,
    file: &mut [u8],
    parser: &mut Parser,
    place: Place,
    nesting: usize,
) -> Result<Place, Stop>
    requires { Asked tokens file parser }
    ensures { ParsesPaid (P.parse_if (place_of place)) tokens file parser nesting result }
{
    let from = parser.state;
    guarded(tokens, file, parser, nesting)?;
    let before = parser.state;
    let t = tokens.peek(before.at);
    let Kind::KwElse = t.kind else {
        let numbers = Numbers::Byte(2);
        return Ok(write_node(file, &mut parser.state, place, Tag::If, numbers));
    };
    parser.state.at = t.next;
    let branch = statement(tokens, file, parser, nesting);
    abandon(
        &mut parser.reported,
        &mut parser.state,
        branch,
        from,
        before,
    )?;
    let numbers = Numbers::Byte(3);
    Ok(write_node(file, &mut parser.state, place, Tag::If, numbers))
}

// parse_statement without its nesting count: chooses the statement by its first token.
#[cycle(statement)]
fn statement_rule(
    tokens: Tokens,
    file: &mut [u8],
    parser: &mut Parser,
    nesting: usize,
) -> Result<Place, Stop>
    requires { Asked tokens file parser }
    ensures { Parses P.statement_rule tokens file parser nesting result }
{
    let t = tokens.peek(parser.state.at);
    let place = t.place;
    match t.kind {
        Kind::KwReturn => {
            parser.state.at = t.next;
            return_statement(tokens, file, parser, place, nesting)
        }
        Kind::KwVar => {
            parser.state.at = t.next;
            declaration(
                tokens,
                file,
                parser,
                Tag::VariableDeclaration,
                place,
                nesting,
            )
        }
        Kind::LBrace => {
            let numbers = Numbers::Two(body(tokens, file, parser, nesting)?);
            Ok(write_node(file, &mut parser.state, place, Tag::Block, numbers))
        }
        Kind::KwLoop => {
            parser.state.at = t.next;
            statement(tokens, file, parser, nesting)?;
            Ok(write_node(file, &mut parser.state, place, Tag::Loop, Numbers::None))
        }
        Kind::KwWhile => {
            parser.state.at = t.next;
            guarded(tokens, file, parser, nesting)?;
            Ok(write_node(file, &mut parser.state, place, Tag::While, Numbers::None))
        }
        Kind::KwBreak => {
            parser.state.at = t.next;
            expect(tokens, parser, Kind::Semicolon)?;
            Ok(write_node(file, &mut parser.state, place, Tag::Break, Numbers::None))
        }
        Kind::KwIf => {
            parser.state.at = t.next;
            if_statement(tokens, file, parser, place, nesting)
        }
        Kind::InlineAssemblyFragment => {
            let tag = Tag::InlineAssembly;
            Ok(leaf(file, &mut parser.state, t, tag, Numbers::None, t.text))
        }
        Kind::End => {
            let error = Error::at_end(ParseError::StatementAtEnd);
            Err(parser.raise(tokens.count, error))
        }
        _ => expression_statement(tokens, file, parser, place, nesting),
    }
}

// parse_statement, one of the four functions whose open calls are counted: refuses where `nesting` is 0.
#[cycle(statement)]
pub fn statement(
    tokens: Tokens,
    file: &mut [u8],
    parser: &mut Parser,
    nesting: usize,
) -> Result<Place, Stop>
    requires { Asked tokens file parser }
    ensures { Parses P.parse_statement tokens file parser nesting result }
{
    if nesting == 0 {
        return Err(parser.state.refuse(tokens.count, Refusal::Nesting));
    }
    statement_rule(tokens, file, parser, nesting - 1)
}
