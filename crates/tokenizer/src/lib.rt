// Tokenise: converts a script to token records, token errors and text, in lent slices.
#![tactic(auto)]

ghost use Rattle.std.specs.Prelude.{◌≡◌};
ghost use Rattle.definition.specs.Operations as O;
ghost use Rattle.tokenizer.specs.Run.{answer};
ghost use Rattle.tokenizer.specs.Contract.{TurnAsks, Taken, RunAsks, Ran};

use classes::character::Class;
use classes::class;
use definition::limit;
use definition::refusal::Refusal;
use definition::token_error::TokenError;
use scan::{Scan, blanks, comment, look, skip};
use slices::fill_from;
use source::{Cursor, admitted, code, step_along};
use token_records::State;
use turns::{Turn, dash_turn, integer_turn, plain, string_turn, with_error, word_turn, zero_turn};

// ---- the loop

// One turn of the loop, at a character that is no newline: dispatches on its class. What it asks is no invariant for the
// reasons that are beside `turns::Turn`.
fn turn(
    most: usize,
    s: &[u8],
    st: State,
    tokens: &mut [u32],
    errors: &mut [u32],
    text: &mut [u8],
) -> Result<State, Refusal>
    requires { TurnAsks most s st tokens errors text }
    ensures { Taken most s st tokens errors text result }
{
    let n = code(s, st.cursor)?;
    let c = step_along(s, st.cursor);
    let next = look(s, c);
    let turn = Turn { s, most, st, c };
    match class(n, next) {
        Class::White => Ok(State { cursor: c, ..st }),
        Class::Comment => Ok(State {
            cursor: comment(s, skip(s, c)),
            ..st
        }),
        Class::Pair(kind) => {
            let second = Turn {
                c: skip(s, c),
                ..turn
            };
            plain(second, kind, tokens)
        }
        Class::Symbol(kind) => plain(turn, kind, tokens),
        Class::Quote => string_turn(turn, tokens, errors, text),
        Class::Word => word_turn(turn, tokens, errors, text),
        Class::Dash => dash_turn(turn, tokens, text),
        Class::Zero => zero_turn(turn, tokens, text),
        Class::Digit => integer_turn(turn, Some(n), 10, tokens, text),
        Class::Unknown => {
            let end = Scan {
                cursor: c,
                n: st.text,
            };
            with_error(st, end, TokenError::UnknownCharacter, errors)
        }
    }
}

// The tokenizer's loop: blanks and a turn, until the end or a refusal. Does not clear the slices after the records.
// Each turn moves the cursor over as many characters as it reads, so no iterator gives its steps. The reason for `most`:
// docs/DECISIONS.md (The limit of tokens is an argument).
pub fn run(
    most: usize,
    s: &[u8],
    tokens: &mut [u32],
    errors: &mut [u32],
    text: &mut [u8],
) -> Result<State, Refusal>
    requires { RunAsks most s tokens errors text }
    ensures { Ran most s tokens errors text result }
{
    let mut st = State {
        cursor: Cursor::START,
        tokens: 0,
        errors: 0,
        text: 0,
    };
    loop {
        st.cursor = blanks(s, st.cursor);
        if s.len() <= st.cursor.at {
            return Ok(st);
        }
        st = turn(most, s, st, tokens, errors, text)?;
    }
}

// ---- the operation

// The counts of tokens, token errors and text bytes.
#[derive(Clone, Copy)]
pub struct Tokenized {
    pub tokens: usize,
    pub errors: usize,
    pub bytes: usize,
}

// Tokenise. Refusals 1 to 3 leave the slices untouched, later ones clear them; zeros follow the last record.
pub fn tokenize(
    script: &[u8],
    tokens: &mut [u32],
    errors: &mut [u32],
    text: &mut [u8],
) -> Result<Tokenized, Refusal>
    ensures { answer result tokens.new errors.new text.new
        ≡ O.tokenise script.now tokens.old errors.old text.old }
{
    admitted(script)?;
    let wide = (limit::TOKEN_WORDS <= tokens.len())
        & (limit::ERROR_WORDS <= errors.len())
        & (limit::TEXT_BYTES <= text.len());
    if !wide {
        return Err(Refusal::SliceLength);
    }
    match run(limit::TOKENS, script, tokens, errors, text) {
        Ok(st) => {
            fill_from(tokens, 8 * st.tokens, 0);
            fill_from(errors, 4 * st.errors, 0);
            fill_from(text, st.text, 0);
            Ok(Tokenized {
                tokens: st.tokens,
                errors: st.errors,
                bytes: st.text,
            })
        }
        Err(refusal) => {
            fill_from(tokens, 0, 0);
            fill_from(errors, 0, 0);
            fill_from(text, 0, 0);
            Err(refusal)
        }
    }
}
