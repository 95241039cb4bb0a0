// The turns of the tokenizer's loop, one function for each class of first character. The slices that they write are
// passed one by one, for the reason that is beside `State`.
#![tactic(auto)]

ghost use Rattle.std.specs.Prelude.{false, [], ◌∷◌, option_to_list, ◌≡◌, ◌*◌, ◌<◌, ◌≤◌, length};
ghost use Rattle.definition.specs.Tokenizer as Z;
ghost use Rattle.definition.specs.Kind as K;
ghost use Rattle.definition.specs.Numbers.{kind_number, token_error_number};
ghost use Rattle.source.specs.Place.{placed};
ghost use Rattle.token_records.specs.Contract.{ErrorsPushed};
ghost use Rattle.turns.specs.Turn.{at_text, Few};
ghost use Rattle.turns.specs.Contract.{Ready, Begun, first, Plain, WithText, Turned, TurnedClean};

use classes::character::is_digit;
use classes::spelling::keyword;
use definition::kind::Kind;
use definition::place::Place;
use definition::refusal::Refusal;
use definition::token_error::TokenError;
use scan::{
    Scan, assembly, digits, is_white_at, is_wide, known, look, put_char, quoted, skip, white,
    wide_word, word_bytes,
};
use slices::put;
use source::{Cursor, step};
use token_records::{State, Token, push_errors, push_token};

// What a turn reads, at most how many tokens there may be, the state before it, whose cursor is the token's place, and
// the cursor after the characters already consumed. `Ready` is no invariant of it: it speaks of the written slices
// too, and what it says of the cursor and the state, as ghost fields, would be proved anew for each
// `Turn { c: .., ..turn }`, as it is now for each call.
#[derive(Clone, Copy)]
pub struct Turn<'a> {
    pub s: &'a [u8],
    pub most: usize,
    pub st: State,
    pub c: Cursor,
}

// ---- the ends of a turn

// Ends the turn at `c` with a token that has no text.
pub fn plain(turn: Turn, kind: Kind, tokens: &mut [u32]) -> Result<State, Refusal>
    requires { Few turn.most turn.st × (8 * turn.most ≤ length tokens.old) }
    ensures { Plain (kind_number kind) false turn.entry tokens result }
{
    let Turn { most, st, c, .. } = turn;
    let token = Token::new(kind, Place::from(st.cursor));
    push_token(most, tokens, State { cursor: c, ..st }, token)
}

// Ends the turn at `c` with a Minus, and says whether the character that it consumed is lost.
fn minus(turn: Turn, lost: bool, tokens: &mut [u32]) -> Result<State, Refusal>
    requires { Few turn.most turn.st × (8 * turn.most ≤ length tokens.old) }
    ensures { Plain K.Minus lost turn.entry tokens result }
{
    let Turn { most, st, c, .. } = turn;
    let token = Token {
        lost,
        ..Token::new(Kind::Minus, Place::from(st.cursor))
    };
    push_token(most, tokens, State { cursor: c, ..st }, token)
}

// Ends the turn where a scan did, with a token whose text is what was written.
fn with_text(
    turn: Turn,
    end: Scan,
    kind: Kind,
    base: u32,
    tokens: &mut [u32],
) -> Result<State, Refusal>
    requires { Few turn.most turn.st × (8 * turn.most ≤ length tokens.old) × (turn.st.text ≤ end.n) × (end.n ≤ 16384) }
    ensures { WithText (kind_number kind) base false turn.entry end tokens result }
{
    let Turn { most, st, .. } = turn;
    let token = Token {
        start: st.text as u32,
        size: (end.n - st.text) as u32,
        base,
        ..Token::new(kind, Place::from(st.cursor))
    };
    push_token(most, tokens, at_scan(st, end), token)
}

// Ends the turn where the scan of assembly did, and says whether its end is lost.
fn fragment(turn: Turn, end: Scan, lost: bool, tokens: &mut [u32]) -> Result<State, Refusal>
    requires { Few turn.most turn.st × (8 * turn.most ≤ length tokens.old) × (turn.st.text ≤ end.n) × (end.n ≤ 16384) }
    ensures { WithText K.InlineAssemblyFragment 0 lost turn.entry end tokens result }
{
    let Turn { most, st, .. } = turn;
    let token = Token {
        start: st.text as u32,
        size: (end.n - st.text) as u32,
        lost,
        ..Token::new(Kind::InlineAssemblyFragment, Place::from(st.cursor))
    };
    push_token(most, tokens, at_scan(st, end), token)
}

// Ends the turn where a scan did, with an error at the place of the turn. The text up to the scan's end is kept.
pub fn with_error(
    st: State,
    end: Scan,
    error: TokenError,
    errors: &mut [u32],
) -> Result<State, Refusal>
    requires { (1024 ≤ length errors.old) × (st.errors ≤ 255) }
    ensures { ErrorsPushed (Z.token_error (token_error_number error) (placed st.cursor) ∷ []) errors (at_text st end.cursor end.n) result }
{
    push_errors(errors, at_scan(st, end), 1, error, Place::from(st.cursor))
}

// The state where a scan ended.
fn at_scan(st: State, end: Scan) -> State
    ensures { result ≡ at_text st end.cursor end.n }
{
    State {
        cursor: end.cursor,
        text: end.n,
        ..st
    }
}

// ---- numbers

// An integer of a base, a number as in `is_digit_of`. Its text begins with `first`, if there is one; no text gives `0`.
pub fn integer_turn(
    turn: Turn,
    first: Option<u8>,
    base: u32,
    tokens: &mut [u32],
    text: &mut [u8],
) -> Result<State, Refusal>
    requires { Ready turn tokens text × (turn.st.text < turn.c.at) }
    ensures { TurnedClean (λ p cs. Z.integer p base (option_to_list first) (Z.digits base cs)) turn.entry tokens text result }
{
    let Turn { s, st, c, .. } = turn;
    let mut n = st.text;
    if let Some(b) = first {
        n = put(text, n, b);
    }
    let mut end = digits(s, c, base, text, n);
    if end.n == st.text {
        end.n = put(text, st.text, b'0');
    }
    with_text(turn, end, Kind::Integer, base, tokens)
}

// An integer after its leading `0`: `x` or `b` sets the base.
pub fn zero_turn(turn: Turn, tokens: &mut [u32], text: &mut [u8]) -> Result<State, Refusal>
    requires { Ready turn tokens text × (turn.st.text < turn.c.at) }
    ensures { TurnedClean Z.zero_turn turn.entry tokens text result }
{
    let Turn { s, c, .. } = turn;
    let (base, c) = match look(s, c) {
        Some(b'x') => (16, skip(s, c)),
        Some(b'b') => (2, skip(s, c)),
        _ => (10, c),
    };
    integer_turn(Turn { c, ..turn }, None, base, tokens, text)
}

// After a dash: an arrow `->`, a negative integer, or Minus, which consumes the next character too. That is lost, unless
// it is white space.
pub fn dash_turn(turn: Turn, tokens: &mut [u32], text: &mut [u8]) -> Result<State, Refusal>
    requires { Ready turn tokens text × (turn.st.text < turn.c.at) }
    ensures { TurnedClean Z.dash_turn turn.entry tokens text result }
{
    let Turn { s, c, .. } = turn;
    if s.len() <= c.at {
        return Err(Refusal::MinusAtEnd);
    }
    let b = s[c.at];
    let d = step(s, c);
    if b == b'>' {
        return plain(Turn { c: d, ..turn }, Kind::RArrow, tokens);
    }
    if is_digit(b) {
        return integer_turn(turn, Some(b'-'), 10, tokens, text);
    }
    let lost = !is_white_at(s, c);
    minus(Turn { c: d, ..turn }, lost, tokens)
}

// ---- words

// Inline assembly, after `asm`: white space, `{`, the text.
fn asm_turn(
    turn: Turn,
    tokens: &mut [u32],
    errors: &mut [u32],
    text: &mut [u8],
) -> Result<State, Refusal>
    requires { Ready turn tokens text × (1024 ≤ length errors.old) }
    ensures { Turned (λ p cs. Z.assembly_turn p (Z.white cs)) turn.entry tokens errors text result }
{
    let Turn { s, st, c, .. } = turn;
    let w = white(s, c);
    known(s, w)?;
    let d = skip(s, w);
    let Some(b'{') = look(s, w) else {
        let end = Scan {
            cursor: d,
            n: st.text,
        };
        return with_error(st, end, TokenError::NoAssembly, errors);
    };
    match assembly(s, d, text, st.text) {
        Ok(end) => fragment(turn, end, false, tokens),
        Err(end) => fragment(turn, end, true, tokens),
    }
}

const ASSEMBLY: &[u8] = b"asm";

// A word after its first letter: inline assembly, a keyword or an identifier.
pub fn word_turn(
    turn: Turn,
    tokens: &mut [u32],
    errors: &mut [u32],
    text: &mut [u8],
) -> Result<State, Refusal>
    requires { Ready turn tokens text × Begun turn text × (1024 ≤ length errors.old) }
    ensures { Turned (λ p cs. Z.word_turn p (Z.run_ahead (first turn.entry) (Z.word cs)))
        turn.entry tokens errors text result }
{
    let Turn { s, st, c, .. } = turn;
    let n = put_char(s, st.cursor, c, text, st.text);
    let mut end = word_bytes(s, c, text, n);
    if is_wide(s, end.cursor.at) {
        end = wide_word(s, end.cursor, text, end.n);
        known(s, end.cursor)?;
    }
    let spelled = &text[st.text..end.n];
    let after = Turn {
        c: end.cursor,
        ..turn
    };
    if spelled == ASSEMBLY {
        return asm_turn(after, tokens, errors, text);
    }
    match keyword(spelled) {
        Some(kind) => plain(after, kind, tokens),
        None => with_text(turn, end, Kind::Identifier, 0, tokens),
    }
}

// ---- strings

// A string, after its opening quote.
pub fn string_turn(
    turn: Turn,
    tokens: &mut [u32],
    errors: &mut [u32],
    text: &mut [u8],
) -> Result<State, Refusal>
    requires { Ready turn tokens text × (1024 ≤ length errors.old) }
    ensures { Turned (λ p cs. Z.string_turn p (Z.quoted false cs)) turn.entry tokens errors text result }
{
    let Turn { s, st, c, .. } = turn;
    let q = quoted(s, c, text, st.text);
    let place = Place::from(st.cursor);
    let st = push_errors(errors, st, q.unknown, TokenError::UnknownEscape, place)?;
    match q.end {
        Ok(end) => with_text(Turn { st, ..turn }, end, Kind::String, 0, tokens),
        Err(end) => {
            let dropped = Scan { n: st.text, ..end };
            with_error(st, dropped, TokenError::UnclosedString, errors)
        }
    }
}
