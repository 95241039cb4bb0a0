// The messages.
ghost use Rattle.definition.specs.Sentence as S;
ghost use Rattle.sentences.specs.Spelling.{Quotes};
ghost use Rattle.sentences.specs.Messages.{parser_meaning, token_meaning};
ghost use Rattle.sentences.specs.Contract.{Told};

use crate::find::character_at;
use crate::write::Sentence;
use definition::kind::Kind;
use definition::parse_error::ParseError;
use definition::place::Place;
use definition::token_error::TokenError;
use steps::tokens::Token;

// Writes the message of a token error at a place of the script.
#[tactic(auto, unfolding(definition::specs::Sentence::token_sentence, definition::specs::Sentence::token_messages, definition::specs::Sentence::token_meaning, definition::specs::Sentence::character_of, definition::specs::Sentence::compose, definition::specs::Ascii::ascii))]
pub fn say_token_message(
    sentence: &mut Sentence<'_>,
    script: &[u8],
    error: TokenError,
    place: Place,
)
    requires { Quotes script.now }
    ensures { Told (S.token_sentence (token_meaning script.now error place)) sentence.old sentence.new }
{
    match error {
        TokenError::UnknownEscape => sentence.say_all(b"unknown escape sequence"),
        TokenError::UnclosedString => {
            sentence.say_all(b"expected closing double-quotes for string");
        }
        TokenError::NoAssembly => sentence.say_all(b"expected { after `asm`"),
        TokenError::UnknownCharacter => {
            sentence.say_all(b"unexpected character: ");
            sentence.say_all(character_at(script, place));
        }
    }
}

// Writes the message of an error of the parser, with the kind expected and the token got; or that of a loss.
#[tactic(auto, unfolding(definition::specs::Sentence::parser_sentence, definition::specs::Sentence::parser_messages, definition::specs::Sentence::compose, definition::specs::Ascii::ascii))]
pub fn say_parser_message(
    sentence: &mut Sentence<'_>,
    error: ParseError,
    expected: Kind,
    got: Token,
)
    ensures { Told (S.parser_sentence (parser_meaning error expected got.entry)) sentence.old sentence.new }
{
    match error {
        ParseError::TopLevel => {
            sentence.say_all(b"unexpected token at top-level: ");
            sentence.say_token(got);
        }
        ParseError::Expected => {
            sentence.say_all(b"expected ");
            sentence.say_name(expected);
            sentence.say_all(b", got ");
            sentence.say_token(got);
        }
        ParseError::ExpectedAtEnd => {
            sentence.say_all(b"expected ");
            sentence.say_name(expected);
            sentence.say_all(b", got end of file");
        }
        ParseError::Identifier => sentence.say_all(b"expected identifier"),
        ParseError::EndOfFile => sentence.say_all(b"unexpected end-of-file"),
        ParseError::StatementAtEnd => sentence.say_all(b"expected statement, got end of file"),
        ParseError::Expression => {
            sentence.say_all(b"expected expression, got ");
            sentence.say_token(got);
        }
        ParseError::ExpressionAtEnd => sentence.say_all(b"expected expression, got end of file"),
        ParseError::ArraySize => sentence.say_all(b"expected array size"),
        ParseError::ArraySizePositive => {
            sentence.say_all(b"array size must be a positive integer");
        }
        ParseError::Type => {
            sentence.say_all(b"expected type, got ");
            sentence.say_token(got);
        }
        ParseError::TypeAtEnd => sentence.say_all(b"expected type, got end of file"),
        ParseError::BodyAtEnd => sentence.say_all(b"expected } before end of file"),
        ParseError::ListAtEnd => sentence.say_all(b"unexpected end-of-file while parsing list"),
        ParseError::InList => {
            sentence.say_all(b"unexpected token ");
            sentence.say_token(got);
            sentence.say_all(b" in list");
        }
        ParseError::NameAfterType => sentence.say_all(b"expected identifier after `type`"),
        ParseError::PathAfterUse => sentence.say_all(b"expected string after `use`"),
        ParseError::CompoundAtEnd => {
            sentence.say_all(b"expected start of compound, got end of file");
        }
        ParseError::Compound => {
            sentence.say_all(b"unexpected token for compound literal ");
            sentence.say_token(got);
        }
        ParseError::CharacterLost => sentence.say_all(b"character lost after minus"),
        ParseError::AssemblyNotClosed => sentence.say_all(b"assembly not closed"),
    }
}
