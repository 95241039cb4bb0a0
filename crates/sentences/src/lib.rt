// Complaints in words: writes the sentence of an error, composed as the messages of tokenizer.rs and parser.rs are.
#![tactic(auto)]

mod find;
mod message;
mod spelling;
mod write;

ghost use Rattle.sentences.specs.Said.{Short};
ghost use Rattle.sentences.specs.Spelling.{Quotes};
ghost use Rattle.sentences.specs.Messages.{parser_sentence, token_sentence};
ghost use Rattle.sentences.specs.Contract.{Said};

use definition::place::Place;
use definition::token_error::TokenError;
use fallible::error::Error;
use find::token_got;
use message::{say_parser_message, say_token_message};
use steps::tokens::Tokens;
use write::Sentence;

// Writes the sentence of an error of the parser, and returns its length.
pub fn say_parser_error(out: &mut [u8], tokens: Tokens, e: Error) -> usize
    requires { Short (parser_sentence tokens.records.now tokens.text.now tokens.count e) 0 }
    ensures { Said (parser_sentence tokens.entry.records.now tokens.entry.text.now tokens.entry.count e) out 0 result }
{
    let token = token_got(tokens, e);
    let mut sentence = Sentence { out, at: 0 };
    say_parser_message(&mut sentence, e.error, e.expected, token);
    sentence.at
}

// Writes the sentence of a token error's record, and returns its length.
pub fn say_token_error(out: &mut [u8], script: &[u8], words: &[u32; 4]) -> usize
    requires { Quotes script.now × Short (token_sentence script.now words.now) 0 }
    ensures { Said (token_sentence script.now words.now) out 0 result }
{
    let [number, line, column, _] = *words;
    let Ok(error) = TokenError::try_from(number) else {
        return 0;
    };
    let mut sentence = Sentence { out, at: 0 };
    say_token_message(&mut sentence, script, error, Place { line, column });
    sentence.at
}
