// Complaints in words: the operation that writes the sentence of one error of a script.
ghost use Rattle.std.specs.Prelude.{◌≡◌, ◌≤◌, length, map};
ghost use Rattle.definition.specs.Sentence as S;
ghost use Rattle.source.specs.Place.{Stands, origin};
ghost use Rattle.sentences.specs.Said.{Short};
ghost use Rattle.sentences.specs.Contract.{Said};
ghost use Rattle.fallible.specs.Lists.{err_of};
ghost use Rattle.parser.specs.Answer.{answer};
ghost use Rattle.reader.specs.Sentences.{said_in, listed, sentence_of, tokens_in, found_in, ExamineAsks, FoundIn};

use crate::found::{ErrorList, Found};
use definition::limit;
use definition::refusal::{Refusal, number_and_count};
use fallible::error::Error;
use fallible::parser::Parser;
use parser::losses::parse_tokens;
use sentences::{say_parser_error, say_token_error};
use slices::fill_from;
use source::admitted;
use steps::tokens::Tokens;
use tokenizer::run;

// Tokenises and parses a valid script into lent slices and a new parser, as the whole operation does; the tree goes to
// `file`. Apart from `read_into`, which parses by `read_tokens`, whose parser ends with it.
fn examine<'a>(
    script: &'a [u8],
    tokens: &'a mut [u32],
    errors: &'a mut [u32],
    text: &'a mut [u8],
    file: &mut [u8],
    parser: &'a mut Parser,
) -> Result<Found<'a>, Refusal>
    requires { ExamineAsks script tokens errors text file parser }
    ensures { FoundIn script result }
{
    let state = run(limit::TOKENS, script, tokens, errors, text)?;
    if state.tokens == 0 {
        return Err(Refusal::NoTokens);
    }
    let tokens = Tokens {
        records: tokens,
        count: state.tokens,
        text,
    };
    parse_tokens(tokens, file, parser)?;
    Ok(Found {
        script,
        tokens,
        errors: &errors.as_chunks().0[..state.errors],
        parser,
    })
}

impl<'a> Found<'a> {
    // Writes the sentence at a position of a list of the parser's errors; nothing past its end.
    fn say_at(&self, out: &mut [u8], list: &[Error], position: usize) -> usize
        requires { Short (listed (tokens_in self.now) (map err_of list.now) position) 0 }
        ensures { Said (listed (tokens_in self.now) (map err_of list.now) position) out 0 result }
    {
        match list.get(position) {
            Some(e) => say_parser_error(out, self.tokens, *e),
            None => 0,
        }
    }

    // Writes the sentence at a position of a list, and returns its length; nothing past its end, or of no list.
    fn say(&self, out: &mut [u8], list: Option<ErrorList>, position: usize) -> usize
        ensures { Said (said_in (found_in self.now) list position) out 0 result }
    {
        let Some(list) = list else {
            return 0;
        };
        let parser = self.parser;
        let state = parser.state;
        match list {
            ErrorList::Token => match self.errors.get(position) {
                Some(words) => say_token_error(out, self.script, words),
                None => 0,
            },
            ErrorList::Reported => {
                self.say_at(out, &parser.reported[..state.reported], position)
            },
            ErrorList::Full => self.say_at(out, &parser.full[..state.full], position),
        }
    }

    // Measures the sentence, and writes it if `out` has room for it. Gives the count of its bytes.
    fn write(
        &self,
        out: &mut [u8],
        list: Option<ErrorList>,
        position: usize,
    ) -> Result<usize, Refusal>
        ensures { answer result out.new ≡ S.said out.old (said_in (found_in self.now) list position) }
    {
        let bytes = self.say(&mut [], list, position);
        if out.len() < bytes {
            return Err(Refusal::SentenceLength);
        }
        let end = self.say(out, list, position);
        fill_from(out, end, 0);
        Ok(end)
    }
}

// The operation after its tests, with slices of its own.
fn sentence_of_valid(
    script: &[u8],
    list: Option<ErrorList>,
    position: usize,
    out: &mut [u8],
) -> Result<usize, Refusal>
    requires { Stands script.now origin × (length script.now ≤ 16384) }
    ensures { answer result out.new ≡ sentence_of (S.examine script.now) list position out.old }
{
    let mut tokens: [u32; limit::TOKEN_WORDS] = [0; limit::TOKEN_WORDS];
    let mut errors: [u32; limit::ERROR_WORDS] = [0; limit::ERROR_WORDS];
    let mut text: [u8; limit::TEXT_BYTES] = [0; limit::TEXT_BYTES];
    let mut file: [u8; limit::FILE_BYTES] = [0; limit::FILE_BYTES];
    let mut parser = Parser::new();
    let found = examine(
        script,
        &mut tokens,
        &mut errors,
        &mut text,
        &mut file,
        &mut parser,
    )?;
    found.write(out, list, position)
}

// Writes the sentence of the error at a position, from 0, of the list with the tag `list`; nothing for a tag of no
// list. Gives the count of its bytes.
pub fn sentence(script: &[u8], list: u32, position: usize, out: &mut [u8]) -> Result<usize, Refusal>
    ensures { answer result out.new ≡ S.sentence script.now list position out.old }
{
    admitted(script)?;
    sentence_of_valid(script, ErrorList::try_from(list).ok(), position, out)
}

// `sentence` in the form for C.
pub fn dn_sentence(
    script: &[u8],
    list: u32,
    position: usize,
    out: &mut [u8],
    bytes: &mut usize,
) -> u32
    ensures { record { number = result; bytes = bytes.new; file = out.new }
        ≡ S.sentence script.now list position out.old }
{
    number_and_count(sentence(script, list, position, out), bytes)
}
