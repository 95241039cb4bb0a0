// Read: parses token records to a tree file.
#![tactic(auto)]

pub mod losses;

ghost use Rattle.std.specs.Prelude.{◌≡◌, ◌<◌, ◌≤◌, length};
ghost use Rattle.definition.specs.Operations as O;
ghost use Rattle.parser.specs.Answer.{answer};
ghost use Rattle.steps.specs.Tokens.{rest};
ghost use Rattle.parser.specs.Contract.{RestRoom, RestWritten, Bounded, recorded_in};

use definition::limit;
use definition::refusal::Refusal;
use definition::tag::Tag;
use error_fields::error_fields;
use fallible::parser::Parser;
use losses::parse_tokens;
use node::{Numbers, Record, write_record};
use slices::fill_from;
use steps::tokens::Tokens;
use validate::valid_records;

// Completes a file that has the records of `count` items up to the parser's offset: writes the module, the errors, and
// zeros to the end. Returns the count of file bytes.
fn end_file(file: &mut [u8], count: usize, errors: &[[u32; 4]], parser: &Parser) -> usize
    requires { RestRoom file errors parser }
    ensures { RestWritten file count errors parser result }
{
    let s = parser.state;
    let module = Record {
        tag: Tag::Module,
        place: None,
        numbers: Numbers::Two(count),
        text: &[],
    };
    let p = write_record(file, s.pos, module);
    let q = error_fields(file, p, Tag::TokenError, errors);
    let r = error_fields(file, q, Tag::ReportedError, &parser.reported[..s.reported]);
    let end = error_fields(file, r, Tag::FullError, &parser.full[..s.full]);
    fill_from(file, end, 0);
    end
}

// Read, for at least one token: writes the tree, the errors and zeros; if refused, zeros only. Gives the count of file
// bytes.
pub fn read_tokens(tokens: Tokens, errors: &[[u32; 4]], file: &mut [u8]) -> Result<usize, Refusal>
    requires { (65536 ≤ length file.old) × ((0 < tokens.count) × Bounded tokens errors) }
    ensures { answer result file.new
        ≡ O.read_validated file.old (rest tokens.entry.records.now tokens.entry.text.now tokens.entry.count 0) (recorded_in errors) }
{
    let mut parser = Parser::new();
    let parsed = parse_tokens(tokens, file, &mut parser);
    let Ok(count) = parsed else {
        fill_from(file, 0, 0);
        return parsed;
    };
    Ok(end_file(file, count, errors, &parser))
}

// Read: validates the records, parses the tokens, and writes the tree file.
pub fn read(
    tokens: &[u32],
    count: usize,
    errors: &[u32],
    error_count: usize,
    text: &[u8],
    file: &mut [u8],
) -> Result<usize, Refusal>
    ensures { answer result file.new
        ≡ O.read tokens.now count errors.now error_count
        text.now file.old }
{
    if file.len() < limit::FILE_BYTES {
        return Err(Refusal::SliceLength);
    }
    if !valid_records(tokens, count, errors, error_count, text) {
        return Err(Refusal::BadRecord);
    }
    if count == 0 {
        return Err(Refusal::NoTokens);
    }
    let tokens = Tokens {
        records: tokens,
        count,
        text,
    };
    read_tokens(tokens, &errors.as_chunks().0[..error_count], file)
}
