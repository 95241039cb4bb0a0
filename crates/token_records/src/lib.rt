// Token and error records as words in lent slices: writes and validates them; the text of a token.
#![tactic(auto)]

ghost use Rattle.std.specs.Prelude.{◌≡◌, ◌&&◌, ◌+◌, ◌*◌, ◌<◌, ◌≤◌, leb, length, replicate};
ghost use Rattle.definition.specs.Choice.{pick};
ghost use Rattle.definition.specs.Classes as C;
ghost use Rattle.definition.specs.Records as R;
ghost use Rattle.definition.specs.Tokenizer as Z;
ghost use Rattle.definition.specs.Numbers.{kind_number, token_error_number};
ghost use Rattle.definition.specs.Places.{place_of};
ghost use Rattle.token_records.specs.Push.{words_of_token, plain_token};
ghost use Rattle.token_records.specs.Tested.{Validates, part_fits, text_fits, words_of};
ghost use Rattle.token_records.specs.Contract.{TokenPushed, ErrorsPushed};

use classes::character::is_digit_of;
use definition::kind::Kind;
use definition::limit;
use definition::place::Place;
use definition::refusal::Refusal;
use definition::token_error::TokenError;
use slices::put_all;
use source::{Cursor, valid};

// ---- writing

// The tokenizer's state: its cursor, and the counts of tokens, errors and text bytes in the lent slices. The
// slices are no part of it, and each function asks for their lengths: a struct that lends them would have to say in
// each contract that it keeps the references.
#[derive(Clone, Copy)]
pub struct State {
    pub cursor: Cursor,
    pub tokens: usize,
    pub errors: usize,
    pub text: usize,
}

// A token, as its record has it: its kind and place, its part of the text, its base, 0 but for an integer, and whether it
// lost something. The base is a number, as it is in `is_digit_of`: a record that is read can have any number there.
#[derive(Clone, Copy)]
pub struct Token {
    pub kind: Kind,
    pub place: Place,
    pub start: u32,
    pub size: u32,
    pub base: u32,
    pub lost: bool,
}

impl Token {
    // One without text or base that lost nothing.
    pub fn new(kind: Kind, place: Place) -> Token
        ensures { result ≡ plain_token kind place }
    {
        Token {
            kind,
            place,
            start: 0,
            size: 0,
            base: 0,
            lost: false,
        }
    }

    // Where its part of the text begins and ends.
    pub fn part(self) -> (usize, usize)
        ensures { (result.0 ≡ self.start) × (result.1 ≡ self.start + self.size) }
    {
        let start = self.start as usize;
        (start, start + self.size as usize)
    }
}

// Pushes a token. Refuses where `most` tokens are there already.
pub fn push_token(
    most: usize,
    tokens: &mut [u32],
    st: State,
    token: Token,
) -> Result<State, Refusal>
    requires { (8 * most ≤ length tokens.old) × (st.tokens ≤ most) }
    ensures { TokenPushed (words_of_token token) most tokens st result }
{
    if most <= st.tokens {
        return Err(Refusal::Tokens);
    }
    let record = [
        u32::from(token.kind),
        token.place.line,
        token.place.column,
        token.start,
        token.size,
        token.base,
        u32::from(token.lost),
        0,
    ];
    put_all(tokens, 8 * st.tokens, &record);
    Ok(State {
        tokens: st.tokens + 1,
        ..st
    })
}

// Pushes the same error `count` times. Refuses if there would be more than 255 errors.
pub fn push_errors(
    errors: &mut [u32],
    st: State,
    count: usize,
    error: TokenError,
    place: Place,
) -> Result<State, Refusal>
    requires { (1024 ≤ length errors.old) × (st.errors ≤ 255) × (count ≤ 16384) }
    ensures { ErrorsPushed (replicate count (Z.token_error (token_error_number error) (place_of place))) errors st result }
{
    let total = st.errors + count;
    if limit::TOKEN_ERRORS < total {
        return Err(Refusal::TokenErrors);
    }
    let record = [u32::from(error), place.line, place.column, 0];
    // The offset is counted here: the library states nothing of a slice after `as_chunks_mut`.
    let mut at = 4 * st.errors;
    for _ in 0..count {
        at = put_all(errors, at, &record);
    }
    Ok(State {
        errors: total,
        ..st
    })
}

// ---- validating

fn base_fits(kind: Kind, base: u32) -> bool
    ensures { result ≡ R.base_fits (kind_number kind) base }
{
    if kind == Kind::Integer {
        matches!(base, 2 | 10 | 16)
    } else {
        base == 0
    }
}

// Whether the seventh word fits: 1 is for kinds that can lose something.
fn lost_fits(kind: Kind, seventh: u32) -> bool
    ensures { result ≡ leb seventh (pick (R.can_lose (kind_number kind)) 1 0) }
{
    seventh <= u32::from(kind.can_lose())
}

const LARGEST_LINE_OR_COLUMN: u32 = 16384;

// Whether the line and the column are within the limits.
pub fn valid_place(place: Place) -> bool
    ensures { result ≡ C.between 1 16384 place.line && C.between 1 16384 place.column }
{
    matches!(place.line, 1..=LARGEST_LINE_OR_COLUMN)
        & matches!(place.column, 1..=LARGEST_LINE_OR_COLUMN)
}

// Whether a part is digits of the base, at least one.
fn some_digits(base: u32, part: &[u8]) -> bool
    ensures { result ≡ R.some_digits base part.now }
{
    !part.is_empty() && part.iter().all(|b| is_digit_of(base, *b))
}

// Whether a part is an integer's text: digits of the base, at least one, in base 10 also after a dash.
fn integer_text(base: u32, part: &[u8]) -> bool
    ensures { result ≡ R.integer_text base part.now }
{
    match part {
        [b'-', digits @ ..] if base == 10 => some_digits(base, digits),
        _ => some_digits(base, part),
    }
}

// Whether a part of the text ends within byte 16,384 and the slice, and is UTF-8.
fn part_fits(text: &[u8], start: usize, end: usize) -> bool
    requires { start ≤ end }
    ensures { result ≡ part_fits text.now start end }
{
    (end <= limit::TEXT_BYTES) && (end <= text.len()) && valid(&text[start..end])
}

// The token of a record, if it is valid, apart from the comparisons with the record before it.
pub fn valid_token(words: &[u32; 8], text: &[u8]) -> Option<Token>
    ensures { Validates text.now (R.words_at words.now 0) result }
{
    let [kind, line, column, start, size, base, seventh, eighth] = *words;
    let Ok(kind) = Kind::try_from(kind) else {
        return None;
    };
    let token = Token {
        kind,
        place: Place { line, column },
        start,
        size,
        base,
        lost: seventh == 1,
    };
    let fields_fit = (kind != Kind::End)
        & valid_place(token.place)
        & base_fits(kind, base)
        & lost_fits(kind, seventh)
        & (eighth == 0);
    if fields_fit & text_fits(token, text) {
        Some(token)
    } else {
        None
    }
}

// Whether a token's part of the text fits its kind.
fn text_fits(token: Token, text: &[u8]) -> bool
    ensures { result ≡ text_fits text.now (words_of token) }
{
    if !token.kind.has_text() {
        return (token.start == 0) & (token.size == 0);
    }
    let (start, end) = token.part();
    if !part_fits(text, start, end) {
        return false;
    }
    token.kind != Kind::Integer || integer_text(token.base, &text[start..end])
}

// ---- token text

// Token text: the part of the text slice that a token's record names; empty if it has no text or its record is bad.
pub fn token_text<'a>(tokens: &[u32], text: &'a [u8], at: usize) -> &'a [u8]
    ensures { result.now ≡ R.text_of tokens.now text.now at }
{
    let Some(words) = tokens.as_chunks::<8>().0.get(at) else {
        return &text[..0];
    };
    match valid_token(words, text) {
        Some(token) if token.kind.has_text() => {
            let (start, end) = token.part();
            &text[start..end]
        }
        _ => &text[..0],
    }
}
