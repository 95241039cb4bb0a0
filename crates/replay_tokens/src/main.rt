// Reads a list of scripts with the answers that Tokenise should give (beside/README.md has its format) from
// standard input, and writes how many agree and how many differ, and the number of the first that differs.
#![tactic(auto)]

use replay_cases::{FILLER, FILLER_WORD, agrees_with, array, holds, number, part};
use std::io::Stdin;

// The most bytes and words of the slices in a list: more than a script may have, or Tokenise needs.
const BYTES: usize = 20000;

const LIST_TOKEN_WORDS: usize = 17000;

const LIST_ERROR_WORDS: usize = 2000;

// The records of each slice.
const LIST_TOKENS: usize = LIST_TOKEN_WORDS / 8;

const LIST_ERRORS: usize = LIST_ERROR_WORDS / 4;

// ---- records

// The next token record of the list.
fn token(list: &mut Stdin) -> Option<[u32; 8]> {
    let record: [u8; 12] = array(list)?;
    let mut fields = record.as_slice();
    Some([
        number(&mut fields, 1)?,
        number(&mut fields, 2)?,
        number(&mut fields, 2)?,
        number(&mut fields, 2)?,
        number(&mut fields, 2)?,
        number(&mut fields, 1)?,
        number(&mut fields, 1)?,
        number(&mut fields, 1)?,
    ])
}

// The next token error of the list.
fn token_error(list: &mut Stdin) -> Option<[u32; 4]> {
    let record: [u8; 6] = array(list)?;
    let mut fields = record.as_slice();
    Some([
        number(&mut fields, 1)?,
        number(&mut fields, 2)?,
        number(&mut fields, 2)?,
        number(&mut fields, 1)?,
    ])
}

// The next `count` records of the list, which it reads to the start of a slice; none if there are fewer, or if the slice
// is shorter. It reads those too that the slice has no room for, so that the next case begins after them.
fn records<'a, T: Copy, F: Fn(&mut Stdin) -> Option<T>>(
    list: &mut Stdin,
    space: &'a mut [T],
    count: u32,
    next: F,
) -> Option<&'a [T]>
    requires { F.IsAlwaysCallable next }
{
    let count = count as usize;
    for at in 0..count {
        let record = next(list)?;
        if let Some(place) = space.get_mut(at) {
            *place = record;
        }
    }
    space.get(..count)
}

// ---- cases

// Whether Tokenise gives the result of a case.
fn agrees(mut header: &[u8], list: &mut Stdin) -> Option<bool> {
    let mut script = [0; BYTES];
    let mut tokens = [FILLER_WORD; LIST_TOKEN_WORDS];
    let mut errors = [FILLER_WORD; LIST_ERROR_WORDS];
    let mut text = [FILLER; BYTES];
    let mut expected_tokens = [[0; 8]; LIST_TOKENS];
    let mut expected_errors = [[0; 4]; LIST_ERRORS];
    let mut expected_text = [0; BYTES];
    let script_bytes = number(&mut header, 3)?;
    let token_words = number(&mut header, 3)?;
    let error_words = number(&mut header, 3)?;
    let text_bytes = number(&mut header, 3)?;
    let refusal = number(&mut header, 1)?;
    let token_count = number(&mut header, 2)?;
    let error_count = number(&mut header, 2)?;
    let bytes = number(&mut header, 2)?;
    let script = part(list, &mut script, script_bytes as usize)?;
    let tokens = tokens.get_mut(..token_words as usize)?;
    let errors = errors.get_mut(..error_words as usize)?;
    let text = text.get_mut(..text_bytes as usize)?;
    let got = tokenizer::tokenize(script, tokens, errors, text);
    // Refusals 1 to 3, which a list has as numbers, leave the slices untouched.
    let (rest_word, rest_byte) = if matches!(refusal, 1..=3) {
        (FILLER_WORD, FILLER)
    } else {
        (0, 0)
    };
    // All three are read, also after one that there is no room for.
    let expected_tokens = records(list, &mut expected_tokens, token_count, token);
    let expected_errors = records(list, &mut expected_errors, error_count, token_error);
    let expected_text = part(list, &mut expected_text, bytes as usize);
    let expected_tokens = expected_tokens?.as_flattened();
    let expected_errors = expected_errors?.as_flattened();
    let expected_text = expected_text?;
    let counts = got.map_or((0, 0), |found| (found.tokens, found.errors));
    let bytes = got.map(|found| found.bytes).map_err(u32::from);
    Some(
        agrees_with(bytes, refusal, expected_text)
            && counts == (token_count as usize, error_count as usize)
            && holds(tokens, expected_tokens, rest_word)
            && holds(errors, expected_errors, rest_word)
            && holds(text, expected_text, rest_byte),
    )
}

fn main(rt: HostRuntime) {
    // The exit status is always 0.
    let _ = replay_cases::replay(&rt, &mut rt.stdin(), &mut [0; 19], agrees);
}
