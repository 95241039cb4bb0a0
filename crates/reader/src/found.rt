// What is found in a script, and the lists of its errors.
ghost use Rattle.std.specs.Prelude.{◌≡◌, ◌≤◌};
ghost use Rattle.definition.specs.Sentence as S;
ghost use Rattle.sentences.specs.Spelling.{Quotes};
ghost use Rattle.steps.specs.Tokens.{rest};
ghost use Rattle.reader.specs.Found.{found_of, reported_in, full_in};
ghost use Rattle.reader.specs.Lists.{ErrorListOf};

use definition::tag::Tag;
use fallible::parser::Parser;
use steps::tokens::Tokens;

// The lists of errors.
#[derive(Clone, Copy)]
pub enum ErrorList {
    Token,
    Reported,
    Full,
}

// A tag of no list of errors. Each conversion has a type of its own for what it refuses, as `NoKind` and `NoTokenError`.
#[derive(Clone, Copy)]
pub struct NoErrorList(pub u32);

// The list that C names by the tag of its fields.
impl TryFrom<u32> for ErrorList {
    type Error = NoErrorList;

    ghost try_from_gives = { ErrorListOf };

    fn try_from(tag: u32) -> Result<Self, NoErrorList> {
        if tag == Tag::TokenError as u32 {
            Ok(ErrorList::Token)
        } else if tag == Tag::ReportedError as u32 {
            Ok(ErrorList::Reported)
        } else if tag == Tag::FullError as u32 {
            Ok(ErrorList::Full)
        } else {
            Err(NoErrorList(tag))
        }
    }
}

// What was found in a script: its tokens, the records of its token errors, and the parser with its errors.
#[derive(Drop)]
pub struct Found<'a> {
    pub script: &'a [u8],
    pub tokens: Tokens<'a>,
    pub errors: &'a [[u32; 4]],
    pub parser: &'a Parser,
    ghost reported_few: { parser.now.state.reported ≤ 256 },
    ghost full_few: { parser.now.state.full ≤ 256 },
    ghost quotes: { Quotes script.now },
    ghost is: { S.examine script.now ≡ S.found (found_of script.now (rest tokens.records.now tokens.text.now tokens.count 0) errors.now (reported_in parser.now) (full_in parser.now)) },
}
