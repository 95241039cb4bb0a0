// Scans white space, comments, words, digits, assembly and strings from a cursor on. Some scans write the text.
#![tactic(auto)]

ghost use Rattle.std.specs.Prelude.{ℕ, Bool, false, true, ◌≡◌, ◌+◌, ◌<◌, ◌≤◌, ltb, length, get_or, unwrap_or};
ghost use Rattle.definition.specs.Tokenizer as Z;
ghost use Rattle.slices.specs.Written.{Wrote};
ghost use Rattle.definition.specs.Classes.{is_white};
ghost use Rattle.definition.specs.Source.{code as number};
ghost use Rattle.source.specs.Place.{Stands, Stepped, rest, char};
ghost use Rattle.scan.specs.Scan.{LineEnd, Tells, span_while, word_bytes};
ghost use Rattle.scan.specs.Contract.{Passes, Asks, Passed, Skips, SkippedAs, Known, CharPut, Spanned, Stopped, EndsAs, QuotedAs};

use classes::character::{is_blank, is_digit_of, is_white, is_word, is_word_byte};
use classes::spelling::escape;
use definition::refusal::Refusal;
use slices::{put, put_all};
use source::{Cursor, along, code, step, step_byte};

// `Stands` and `Passes` say that a cursor is a place of this script, `Asks` also that the text has room. No type has them
// for an invariant: of a script and a cursor in one struct each result would have to say that it has the same script
// still, and a struct that lends the text would have to say in each contract that it keeps the reference.

// ---- looking and skipping

// The byte at the cursor, if it is not the end. The definition has 0 there.
pub fn look(s: &[u8], c: Cursor) -> Option<u8>
    requires { Stands s.now c }
    ensures { unwrap_or result 0 ≡ Z.look (rest s.now c) }
{
    s.get(c.at).copied()
}

// Whether a character of more than one byte begins at an offset.
pub fn is_wide(s: &[u8], at: usize) -> bool
    ensures { result ≡ ltb 127 (get_or s.now at 0) }
{
    at < s.len() && !s[at].is_ascii()
}

// Steps over the character at `c`, if there is one.
pub fn skip(s: &[u8], c: Cursor) -> Cursor
    requires { Passes s c }
    ensures { Passed Z.drop_one s c result }
{
    if c.at < s.len() { step(s, c) } else { c }
}

// ---- scans that write nothing

// The offset of the first newline from `at` on, or of the end. Not inlined: the registers of the caller are all taken.
#[inline(never)]
fn line_end(s: &[u8], mut at: usize) -> usize
    requires { at ≤ length s.now }
    ensures { LineEnd s.now at result }
{
    while at != s.len() && s[at] != b'\n' {
        at += 1;
    }
    at
}

// Skips a comment with the newline that ends it, or to the end. It goes by bytes: none within a character is a newline, and
// no column is counted in the line that ends.
pub fn comment(s: &[u8], from: Cursor) -> Cursor
    requires { Passes s from }
    ensures { Passed Z.comment s from result }
{
    let at = line_end(s, from.at);
    if at == s.len() {
        return Cursor { at, ..from };
    }
    Cursor {
        at: at + 1,
        line: from.line + 1,
        column: 1,
    }
}

// Skips white space of one byte, as most is. This loop, and those of `assembly` and `quoted`, go by a cursor, which steps
// over characters and keeps their places: an iterator over bytes does not, and one over characters decodes each of them.
pub fn blanks(s: &[u8], from: Cursor) -> Cursor
    requires { Passes s from }
    ensures { Skips s from result }
{
    let mut c = from;
    while c.at < s.len() && is_blank(s[c.at]) {
        c = step_byte(s, c);
    }
    c
}

// Whether the character at `c` is white space. One above 255 is none.
pub fn is_white_at(s: &[u8], c: Cursor) -> bool
    requires { Passes s c × (c.at < length s.now) }
    ensures { result ≡ is_white (number (char s.now c)) }
{
    code(s, c).is_ok_and(is_white)
}

// Skips white space, up to another character.
pub fn white(s: &[u8], from: Cursor) -> Cursor
    requires { Passes s from }
    ensures { SkippedAs Z.white s from result }
{
    let mut c = from;
    while c.at < s.len() && is_white_at(s, c) {
        c = step(s, c);
    }
    c
}

// Refuses a character above 255 where `white` or `wide_word` stopped. They return no `Result` themselves: a cursor in one
// is packed and unpacked.
pub fn known(s: &[u8], c: Cursor) -> Result<(), Refusal>
    requires { Passes s c }
    ensures { Known s c result }
{
    if c.at < s.len() {
        code(s, c)?;
    }
    Ok(())
}

// ---- scans that write

// Where a scan stopped, and the offset after what it wrote.
#[derive(Clone, Copy)]
pub struct Scan {
    pub cursor: Cursor,
    pub n: usize,
}

// Scans the characters for which a test holds. It may hold for digits, letters and those between them alone. Each is
// written as it is scanned, so that a word is read once.
fn scan_while<F: Fn(u8) -> bool>(
    s: &[u8],
    from: Cursor,
    test: F,
    text: &mut [u8],
    start: usize,
) -> Scan
    requires asks { Asks s from text start }
    requires callable { F.IsAlwaysCallable test }
    requires plain { (b : ℕ) → b < 256 → F.post test b true → (48 ≤ b) × (b < 128) }
    ensures { (holds : ℕ → Bool) → Tells (F.post test) holds → Spanned (span_while holds) s from text start result }
{
    let mut count = 0;
    while from.at + count != s.len() {
        let b = s[from.at + count];
        if !test(b) {
            break;
        }
        put(text, start + count, b);
        count += 1;
    }
    Scan {
        cursor: along(from, count),
        n: start + count,
    }
}

// Scans the digits of a base, which is a number as in `is_digit_of`.
pub fn digits(s: &[u8], from: Cursor, base: u32, text: &mut [u8], start: usize) -> Scan
    requires { Asks s from text start }
    ensures { Spanned (Z.digits base) s from text start result }
{
    scan_while(s, from, |b| is_digit_of(base, b), text, start)
}

// Writes the bytes of a character of more than one. Cold and not inlined, since most have one.
#[cold]
#[inline(never)]
fn put_wide(text: &mut [u8], n: usize, bytes: &[u8]) -> usize
    requires { n + length bytes.now ≤ length text.old }
    ensures { Wrote text.old n bytes.now text.new result }
{
    put_all(text, n, bytes)
}

// Writes the character between two cursors, and returns the offset after it. Most have one byte.
pub fn put_char(s: &[u8], c: Cursor, next: Cursor, text: &mut [u8], n: usize) -> usize
    requires { Asks s c text n × (c.at < length s.now) × Stepped s.now c next }
    ensures { CharPut s c text n result }
{
    let b = s[c.at];
    if b.is_ascii() {
        put(text, n, b)
    } else {
        put_wide(text, n, &s[c.at..next.at])
    }
}

// Scans the characters of a word that have one byte.
pub fn word_bytes(s: &[u8], from: Cursor, text: &mut [u8], start: usize) -> Scan
    requires { Asks s from text start }
    ensures { Spanned word_bytes s from text start result }
{
    scan_while(s, from, is_word_byte, text, start)
}

// Scans the characters of a word, up to another one. Cold, since few words have a character of more than one byte.
#[cold]
pub fn wide_word(s: &[u8], from: Cursor, text: &mut [u8], start: usize) -> Scan
    requires { Asks s from text start }
    ensures { Stopped Z.word s from text start result }
{
    let mut c = from;
    let mut n = start;
    while c.at < s.len() && code(s, c).is_ok_and(is_word) {
        let next = step(s, c);
        n = put_char(s, c, next, text, n);
        c = next;
    }
    Scan { cursor: c, n }
}

// Scans inline assembly: `Ok` after the `}` that closes it, which is consumed, `Err` at the end of the script.
pub fn assembly(s: &[u8], from: Cursor, text: &mut [u8], start: usize) -> Result<Scan, Scan>
    requires { Asks s from text start }
    ensures { EndsAs Z.closed Z.assembly s from text start result }
{
    let mut c = from;
    let mut n = start;
    while c.at < s.len() {
        let next = step(s, c);
        if s[c.at] == b'}' {
            return Ok(Scan { cursor: next, n });
        }
        n = put_char(s, c, next, text, n);
        c = next;
    }
    Err(Scan { cursor: c, n })
}

// ---- strings

// How the scan of a string ended: `Ok` after the quote that closes it, `Err` at the end of the script; and the count of
// unknown escapes.
#[derive(Clone, Copy)]
pub struct Body {
    pub end: Result<Scan, Scan>,
    pub unknown: usize,
}

// Scans the text of a string and its closing quote. Unknown escapes are counted and left out.
pub fn quoted(s: &[u8], from: Cursor, text: &mut [u8], start: usize) -> Body
    requires { Asks s from text start }
    ensures { QuotedAs (Z.quoted false) s from text start result }
{
    let mut c = from;
    let mut n = start;
    let mut unknown = 0;
    while c.at < s.len() {
        let b = s[c.at];
        if b == b'"' {
            return Body {
                end: Ok(Scan {
                    cursor: step(s, c),
                    n,
                }),
                unknown,
            };
        }
        if b != b'\\' {
            let next = step(s, c);
            n = put_char(s, c, next, text, n);
            c = next;
            continue;
        }
        let next = step(s, c);
        if s.len() <= next.at {
            return Body {
                end: Err(Scan { cursor: next, n }),
                unknown: unknown + 1,
            };
        }
        c = step(s, next);
        let Some(escaped) = escape(s[next.at]) else {
            unknown += 1;
            continue;
        };
        n = put(text, n, escaped);
    }
    Body {
        end: Err(Scan { cursor: c, n }),
        unknown,
    }
}
