// The top-level items of a module, and the module.
#![tactic(auto)]

mod functions;
mod others;

ghost use Rattle.definition.specs.Parser as P;
ghost use Rattle.steps.specs.Contract.{Asked, Parses};
ghost use Rattle.expression_laws.specs.Contract.{LoopOn};
ghost use Rattle.items.specs.Rules.{items_on};

use definition::kind::Kind;
use definition::parse_error::ParseError;
use definition::place::Place;
use definition::refusal::Refusal;
use definition::tag::Tag;
use fallible::error::Error;
use fallible::parser::Parser;
use fallible::{Stop, recover};
use functions::function_definition;
use leaves::{counted, leaf};
use node::Numbers;
use others::{top_level_var_declaration, type_alias, use_path};
use steps::tokens::Tokens;

// parse_top_level_item: function_definition | type_alias | use_path | top_level_var_declaration | assembly
fn top_level_item(
    tokens: Tokens,
    file: &mut [u8],
    parser: &mut Parser,
    nesting: usize,
) -> Result<Place, Stop>
    requires { Asked tokens file parser }
    ensures { Parses P.parse_top_level_item tokens file parser nesting result }
{
    let t = tokens.peek(parser.state.at);
    match t.kind {
        Kind::KwFn | Kind::KwExtern => function_definition(tokens, file, parser, nesting),
        Kind::KwType | Kind::KwDistinct | Kind::KwInternal => {
            type_alias(tokens, file, parser, nesting)
        }
        Kind::KwUse => use_path(tokens, file, parser),
        Kind::KwVar => top_level_var_declaration(tokens, file, parser, nesting),
        Kind::InlineAssemblyFragment => {
            let tag = Tag::TopLevelAssembly;
            Ok(leaf(file, &mut parser.state, t, tag, Numbers::None, t.text))
        }
        _ => {
            parser.state.at = t.next;
            let error = Error::new(ParseError::TopLevel, t.place, Kind::End, t.kind);
            Err(parser.raise(tokens.count, error))
        }
    }
}

// ---- the module

// parse_module: {top_level_item} to the end, from the parser's state on; at most `nesting` counted calls may be open.
// Never fatal; gives the count of the items. No iterator gives the turns: each begins at the token where the item of the
// turn before it ended.
pub fn module(
    tokens: Tokens,
    file: &mut [u8],
    parser: &mut Parser,
    nesting: usize,
) -> Result<usize, Refusal>
    requires { Asked tokens file parser }
    ensures { LoopOn items_on 0 tokens file parser nesting result }
{
    let mut count = 0;
    loop {
        let t = tokens.peek(parser.state.at);
        if let Kind::End = t.kind {
            return Ok(count);
        }
        let parsed = recover(top_level_item(tokens, file, parser, nesting))?;
        count = counted(parsed, count);
    }
}
