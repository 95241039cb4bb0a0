// Validates the token and error records passed to Read: the counts, the lengths of the slices, and each record.
#![tactic(auto)]

ghost use Rattle.std.specs.Prelude.{◌≡◌, List, ℕ};
ghost use Rattle.std.specs.Simd.{first_chunks};
ghost use Rattle.definition.specs.Slices.{at_entry};
ghost use Rattle.definition.specs.Records as R;
ghost use Rattle.definition.specs.Operations as O;
ghost use Rattle.definition.specs.Source.{nowhere, is_some};
ghost use Rattle.definition.specs.Places.{place_of};
ghost use Rattle.token_records.specs.Tested.{words_of};

use definition::limit;
use definition::place::Place;
use definition::token_error::TokenError;
use token_records::{Token, valid_place, valid_token};

// ---- tokens

// The place of the token before, and the end of the last text before.
#[derive(Clone, Copy)]
struct Previous {
    place: Place,
    end: usize,
}

// Whether a token follows those before it.
fn follows(previous: Previous, token: Token) -> bool
    ensures { result ≡ R.valid_after (place_of previous.place) previous.end (words_of token) }
{
    (previous.place < token.place)
        && (!token.kind.has_text() || previous.end <= token.start as usize)
}

// What the next token is compared with.
fn remember(previous: Previous, token: Token) -> Previous
    ensures { (place_of result.place ≡ R.place_of (words_of token))
        × (result.end ≡ R.text_end previous.end (words_of token)) }
{
    let end = if token.kind.has_text() {
        token.part().1
    } else {
        previous.end
    };
    Previous {
        place: token.place,
        end,
    }
}

// Whether each token record is valid. Each is compared with those before it.
fn valid_tokens(records: &[[u32; 8]], text: &[u8]) -> bool
    ensures { (tokens : List ℕ) (n : ℕ) → at_entry records ≡ first_chunks 8 n tokens
        → result ≡ is_some (R.tokens_of tokens (at_entry text) nowhere 0 0 n) }
{
    let mut previous = Previous {
        place: Place::NOWHERE,
        end: 0,
    };
    for words in records {
        let Some(token) = valid_token(words, text) else {
            return false;
        };
        if !follows(previous, token) {
            return false;
        }
        previous = remember(previous, token);
    }
    true
}

// ---- errors

fn valid_error(words: &[u32; 4]) -> bool
    ensures { result ≡ R.valid_error (R.error_at words.now 0) }
{
    let [number, line, column, fourth] = *words;
    let place = Place { line, column };
    TokenError::try_from(number).is_ok() & valid_place(place) & (fourth == 0)
}

// Whether each error record is valid.
fn valid_errors(records: &[[u32; 4]]) -> bool
    ensures { (errors : List ℕ) (n : ℕ) → at_entry records ≡ first_chunks 4 n errors
        → result ≡ is_some (R.errors_of errors 0 n) }
{
    records.iter().all(valid_error)
}

// ---- both

// Whether the slices hold the stated counts of records, within the limits, and each record is valid. The counts are not
// the slices' lengths, but what the caller says of them.
pub fn valid_records(
    tokens: &[u32],
    count: usize,
    errors: &[u32],
    error_count: usize,
    text: &[u8],
) -> bool
    ensures { result ≡ is_some (O.validate (at_entry tokens) count (at_entry errors) error_count (at_entry text)) }
{
    if (limit::TOKENS < count) | (limit::TOKEN_ERRORS < error_count) {
        return false;
    }
    let Some(token_records) = tokens.as_chunks().0.get(..count) else {
        return false;
    };
    let Some(error_records) = errors.as_chunks().0.get(..error_count) else {
        return false;
    };
    valid_tokens(token_records, text) & valid_errors(error_records)
}
