// Steps of parser.rs on single tokens: the next token, `expect`, `expect_identifier`, a record after a call.
//
// The functions of the parser take one by one: the tokens, the file, the parser, and how many more calls may be opened. A
// parser that held them all would have to say in each contract that it keeps the tokens and the reference of the file, and
// its nesting would have to be put back after each call. What they require (`Asks`, `Asked`) relates the state to the
// tokens and the file; what it says of the counts of errors alone would, as ghost fields of `Parser`, have to be proved
// after each call that is lent its parts (`abandon`). The file's offset is in the state, which `abandon` sets back.
#![tactic(auto)]

pub mod textless;
pub mod tokens;

ghost use Rattle.std.specs.Prelude.{[], ◌+◌, ◌<◌, ◌≤◌, length};
ghost use Rattle.definition.specs.Numbers.{kind_number};
ghost use Rattle.definition.specs.Parser as P;
ghost use Rattle.definition.specs.Slices.{at_entry};
ghost use Rattle.node.specs.Put.{placed};
ghost use Rattle.steps.specs.Contract.{Asks, Follows, Expects, Expected, WritesNode};

use definition::kind::Kind;
use definition::place::Place;
use definition::tag::Tag;
use fallible::Stop;
use fallible::parser::{Parser, State};
use node::{Numbers, Record, write_record};
use tokens::Tokens;

// `textless::expect`, of tokens with their text.
#[inline(always)]
pub fn expect(tokens: Tokens, parser: &mut Parser, wanted: Kind) -> Result<Place, Stop>
    requires { Asks tokens parser × (0 < kind_number wanted) }
    ensures { Expects (λ role. P.expect_as role (kind_number wanted)) tokens parser result }
{
    textless::expect(tokens.records(), parser, wanted)
}

// `textless::expect_identifier`, of tokens with their text.
#[inline(always)]
pub fn expect_identifier(tokens: Tokens, parser: &mut Parser) -> Result<Place, Stop>
    requires { Asks tokens parser }
    ensures { Expects (λ role. P.expect_identifier) tokens parser result }
{
    textless::expect_identifier(tokens.records(), parser)
}

// `textless::expect_after`, of tokens with their text.
#[inline(always)]
pub fn expect_after(
    tokens: Tokens,
    parser: &mut Parser,
    wanted: Kind,
    from: State,
) -> Result<Place, Stop>
    requires { Follows tokens parser from × (0 < kind_number wanted) }
    ensures { Expected (kind_number wanted) tokens parser from result }
{
    textless::expect_after(tokens.records(), parser, wanted, from)
}

// Writes the record of a node, and returns its place.
pub fn write_text_node(
    file: &mut [u8],
    state: &mut State,
    place: Place,
    tag: Tag,
    numbers: Numbers,
    text: &[u8],
) -> Place
    requires { state.old.pos + 16 + length text.now ≤ length file.old }
    ensures { WritesNode (placed place tag numbers (at_entry text)) file state result }
{
    let record = Record {
        tag,
        place: Some(place),
        numbers,
        text,
    };
    state.pos = write_record(file, state.pos, record);
    place
}

// Like `write_text_node`, with no text.
pub fn write_node(
    file: &mut [u8],
    state: &mut State,
    place: Place,
    tag: Tag,
    numbers: Numbers,
) -> Place
    requires { state.old.pos + 16 ≤ length file.old }
    ensures { WritesNode (placed place tag numbers []) file state result }
{
    write_text_node(file, state, place, tag, numbers, &[])
}
