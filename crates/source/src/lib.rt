// Tests a script's length and UTF-8 (RFC 3629), and moves a cursor over its characters.
#![tactic(auto)]

ghost use Rattle.std.specs.Prelude.{◌≡◌, ◌+◌, ◌<◌, ◌≤◌, length, get_or};
ghost use Rattle.definition.specs.Source.{lead, utf8};
ghost use Rattle.source.specs.Place.{more, Stands, Stepped, InLine, CodeAt, along_line, PlaceOf, Admits};

use definition::limit;
use definition::place::Place;
use definition::refusal::Refusal;
use std::str::from_utf8;

// ---- UTF-8

// Whether the bytes are UTF-8.
pub fn valid(s: &[u8]) -> bool
    ensures { result ≡ utf8 s.now }
{
    from_utf8(s).is_ok()
}

// The tests that each operation on a script begins with.
pub fn admitted(script: &[u8]) -> Result<(), Refusal>
    ensures { Admits script.now result }
{
    if limit::SCRIPT_BYTES < script.len() {
        return Err(Refusal::ScriptLength);
    }
    if !valid(script) {
        return Err(Refusal::NotUtf8);
    }
    Ok(())
}

// The number of bytes of the character that begins with `b`; 1 where none does.
#[tactic(auto, using(std::proofs::lemmas::Bool::Decides::nat_tests), unfolding(definition::specs::Source::lead, definition::specs::Choice::first))]
pub fn width(b: u8) -> u32
    ensures { result ≡ more (lead b) + 1 }
{
    if b.is_ascii() {
        return 1;
    }
    match b {
        0xC2..=0xDF => 2,
        0xE0..=0xEF => 3,
        0xF0..=0xF4 => 4,
        _ => 1,
    }
}

// ---- places

// A place in the script: the offset, line and column of a character.
#[derive(Clone, Copy)]
pub struct Cursor {
    pub at: usize,
    pub line: u32,
    pub column: u32,
}

impl Cursor {
    // The start of a script.
    pub const START: Cursor = Cursor {
        at: 0,
        line: 1,
        column: 1,
    };
}

impl From<Cursor> for Place {
    ghost from_gives = { PlaceOf };

    fn from(c: Cursor) -> Place {
        Place {
            line: c.line,
            column: c.column,
        }
    }
}

// The cursor after `count` characters of one byte that are no newlines.
pub fn along(c: Cursor, count: usize) -> Cursor
    requires { (c.at + count ≤ 16384) × (c.column + count ≤ 16385) }
    ensures { result ≡ along_line c count }
{
    Cursor {
        at: c.at + count,
        line: c.line,
        column: c.column + count as u32,
    }
}

// Steps over a character that is no newline.
pub fn step_along(s: &[u8], c: Cursor) -> Cursor
    requires { InLine s.now c × (length s.now ≤ 16384) }
    ensures { Stepped s.now c result }
{
    Cursor {
        at: c.at + width(s[c.at]) as usize,
        line: c.line,
        column: c.column + 1,
    }
}

// Steps over a character of one byte. A newline belongs to the line it ends.
pub fn step_byte(s: &[u8], c: Cursor) -> Cursor
    requires { Stands s.now c × (c.at < length s.now) × (get_or s.now c.at 0 < 128) × (length s.now ≤ 16384) }
    ensures { Stepped s.now c result }
{
    if s[c.at] == b'\n' {
        return Cursor {
            at: c.at + 1,
            line: c.line + 1,
            column: 1,
        };
    }
    along(c, 1)
}

// Steps over the character at `c`.
pub fn step(s: &[u8], c: Cursor) -> Cursor
    requires { Stands s.now c × (c.at < length s.now) × (length s.now ≤ 16384) }
    ensures { Stepped s.now c result }
{
    if s[c.at].is_ascii() {
        step_byte(s, c)
    } else {
        step_along(s, c)
    }
}

// ---- numbers

// The number of a character of more than one byte. One above 255 is refused, others have two bytes. Cold and not inlined,
// since most characters have one.
#[cold]
#[inline(never)]
fn wide_code(s: &[u8], c: Cursor) -> Result<u8, Refusal>
    requires { Stands s.now c × (c.at < length s.now) × (128 ≤ get_or s.now c.at 0) × (length s.now ≤ 16384) }
    ensures { CodeAt s.now c result }
{
    let b = s[c.at];
    if 0xC3 < b {
        return Err(Refusal::ForeignCharacter);
    }
    Ok((b - 0xC0) * 64 + (s[c.at + 1] - 0x80))
}

// The number of the character at `c`, by which its classes are asked. One above 255 is refused.
pub fn code(s: &[u8], c: Cursor) -> Result<u8, Refusal>
    requires { Stands s.now c × (c.at < length s.now) × (length s.now ≤ 16384) }
    ensures { CodeAt s.now c result }
{
    let b = s[c.at];
    if b.is_ascii() { Ok(b) } else { wide_code(s, c) }
}
