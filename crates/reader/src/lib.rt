// The whole operation: reads a script and writes its tree file. Complaints in words: sentence.rt.
#![tactic(auto)]

mod found;
pub mod sentence;

ghost use Rattle.std.specs.Prelude.{◌≡◌, ◌≤◌, length};
ghost use Rattle.definition.specs.Numbers.{refusal_number};
ghost use Rattle.definition.specs.Operations as O;
ghost use Rattle.source.specs.Place.{Stands, origin};
ghost use Rattle.tokenizer.specs.Contract.{RunAsks, Ran};
ghost use Rattle.parser.specs.Answer.{answer};
ghost use Rattle.reader.specs.OneTree.{OneTree};

use definition::limit;
use definition::refusal::{Refusal, number_and_count};
use parser::read_tokens;
use slices::fill_from;
use source::admitted;
use steps::tokens::Tokens;
use token_records::State;
use tokenizer::run;

// A refusal after the first three tests: clears the file.
fn cleared(refusal: Refusal, file: &mut [u8]) -> Result<usize, Refusal>
    ensures { answer result file.new ≡ O.written file.old (O.refused (refusal_number refusal)) }
{
    fill_from(file, 0, 0);
    Err(refusal)
}

// A script that was read: the answer, and the state in which the tokenizer ended, or what it refused. No code reads the
// state: with it the contract of `read_into` says what the lent slices hold.
#[derive(Clone, Copy)]
pub struct ScriptRead {
    pub written: Result<usize, Refusal>,
    pub state: Result<State, Refusal>,
}

// Tokenises a valid script into lent slices, and reads its tokens into the file. The records stay in the slices; they
// are those of the tokenizer's loop, so they are not validated again.
pub fn read_into(
    script: &[u8],
    tokens: &mut [u32],
    errors: &mut [u32],
    text: &mut [u8],
    file: &mut [u8],
) -> ScriptRead
    requires { RunAsks 2048 script tokens errors text × (65536 ≤ length file.old) }
    ensures { Ran 2048 script tokens errors text result.state
        × (answer result.written file.new ≡ O.whole script.now file.old) }
{
    let state = run(limit::TOKENS, script, tokens, errors, text);
    let found = match state {
        Ok(found) => found,
        Err(refusal) => {
            let written = cleared(refusal, file);
            return ScriptRead { written, state };
        }
    };
    if found.tokens == 0 {
        let written = cleared(Refusal::NoTokens, file);
        return ScriptRead { written, state };
    }
    let tokens = Tokens {
        records: tokens,
        count: found.tokens,
        text,
    };
    let written = read_tokens(tokens, &errors.as_chunks().0[..found.errors], file);
    ScriptRead { written, state }
}

// The whole operation after its tests, with token slices of its own.
fn read_valid(script: &[u8], file: &mut [u8]) -> Result<usize, Refusal>
    requires { Stands script.now origin × (length script.now ≤ 16384) × (65536 ≤ length file.old) }
    ensures { answer result file.new ≡ O.whole script.now file.old }
{
    let mut tokens: [u32; limit::TOKEN_WORDS] = [0; limit::TOKEN_WORDS];
    let mut errors: [u32; limit::ERROR_WORDS] = [0; limit::ERROR_WORDS];
    let mut text: [u8; limit::TEXT_BYTES] = [0; limit::TEXT_BYTES];
    let r = read_into(script, &mut tokens, &mut errors, &mut text, file);
    r.written
}

// The whole operation: tokenises a script, parses it, and writes its tree file. Gives the count of file bytes.
pub fn read_script(script: &[u8], file: &mut [u8]) -> Result<usize, Refusal>
    ensures { answer result file.new ≡ O.whole script.now file.old }
{
    admitted(script)?;
    if file.len() < limit::FILE_BYTES {
        return Err(Refusal::SliceLength);
    }
    read_valid(script, file)
}

// `read_script` in the form for C.
pub fn dn_read(script: &[u8], file: &mut [u8], bytes: &mut usize) -> u32
    ensures { record { number = result; bytes = bytes.new; file = file.new }
        ≡ O.whole script.now file.old }
{
    number_and_count(read_script(script, file), bytes)
}

// The results for two scripts.
#[derive(Clone, Copy)]
pub struct TwoAnswers {
    first: Result<usize, Refusal>,
    second: Result<usize, Refusal>,
}

// Demand 3 (docs/FORMAT.md, Two scripts with one tree) about the code itself: reads two scripts, each to a file
// slice of its own; its contract is the demand. No program calls it: it is here so that the demand is proved of
// `read_script`, not of the definition alone.
pub fn two_scripts_one_tree(
    first: &[u8],
    left: &mut [u8],
    second: &[u8],
    right: &mut [u8],
) -> TwoAnswers
    ensures { OneTree first.now left.new result.first
        second.now right.new result.second }
{
    let a = read_script(first, left);
    let b = read_script(second, right);
    TwoAnswers {
        first: a,
        second: b,
    }
}
