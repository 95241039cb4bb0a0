// The body of a field, part by part (docs/FORMAT.md, Records by tag and Error fields).
ghost use Rattle.std.specs.Prelude.{◌≡◌, List, true, ◌&&◌, ◌+◌, ◌<◌, ◌≤◌, eqb, length};
ghost use Rattle.definition.specs.Source.{utf8};
ghost use Rattle.definition.specs.Classes.{between};
ghost use Rattle.definition.specs.Format as F;
ghost use Rattle.definition.specs.Stored as S;
ghost use Rattle.stored.specs.declared.nodes.Role.{Role};
ghost use Rattle.stored.specs.Parts.{Bounded, as_part, as_numbers, left, Reads, Ends};

use crate::nodes::{Children, Role};
use definition::limit;
use source::valid;

// The last byte and the last count of a body, 0 where it has none.
#[derive(Clone, Copy)]
pub struct Numbers {
    pub byte: usize,
    pub count: usize,
}

// The number in two bytes, at an offset.
pub fn word(bytes: &[u8], at: usize) -> u16
    requires { at + 1 < length bytes.now }
    ensures { result ≡ S.word bytes.now at }
{
    256 * bytes[at] as u16 + bytes[at + 1] as u16
}

// Whether a line or a column is one of a script.
fn stands(n: u16) -> bool
    ensures { result ≡ between 1 16384 n }
{
    1 <= n && n as usize <= limit::SCRIPT_BYTES
}

// ---- what a part may hold

// A place. One test for both numbers takes less time than two.
fn is_place(bytes: &[u8]) -> bool
    ensures { result ≡ S.fits F.place bytes.now }
{
    4 <= bytes.len() && stands(word(bytes, 0)) & stands(word(bytes, 2))
}

// 0:0.
fn is_nowhere(bytes: &[u8]) -> bool
    requires { 4 ≤ length bytes.now }
    ensures { result ≡ eqb (S.word bytes.now 0) 0 && eqb (S.word bytes.now 2) 0 }
{
    word(bytes, 0) == 0 && word(bytes, 2) == 0
}

// A place, or 0:0.
fn is_place_or_nowhere(bytes: &[u8]) -> bool
    ensures { result ≡ S.fits F.place_or_nowhere bytes.now }
{
    4 <= bytes.len() && (is_place(bytes) || is_nowhere(bytes))
}

// A byte within two bounds.
fn is_byte(bytes: &[u8], least: u8, most: u8) -> bool
    ensures { result ≡ S.fits (F.byte least most) bytes.now }
{
    1 <= bytes.len() && least <= bytes[0] && bytes[0] <= most
}

// The base of an Integer.
fn is_base(bytes: &[u8]) -> bool
    ensures { result ≡ S.fits F.base bytes.now }
{
    1 <= bytes.len() && (bytes[0] == 2 || bytes[0] == 10 || bytes[0] == 16)
}

// A count.
fn is_count(bytes: &[u8]) -> bool
    ensures { result ≡ S.fits F.count bytes.now }
{
    2 <= bytes.len() && word(bytes, 0) as usize <= limit::TOKENS
}

// A number in eight bytes.
fn is_eight(bytes: &[u8]) -> bool
    ensures { result ≡ S.fits F.eight bytes.now }
{
    8 <= bytes.len()
}

// The bits of N bytes from an offset on: no byte of them is above it.
fn bits<const N: usize>(bytes: &[u8], at: usize) -> u8
    requires { at + N ≤ length bytes.now }
    ensures { Bounded bytes.now at N result }
{
    let mut all = 0;
    let mut k = 0;
    while k < N {
        all |= bytes[at + k];
        k += 1;
    }
    all
}

// Whether all bytes are ASCII, N at a time; the last N may share bytes with those before.
fn is_ascii_by<const N: usize>(bytes: &[u8]) -> bool
    requires { (1 ≤ N) × (N ≤ length bytes.now) }
    ensures { result ≡ true → utf8 bytes.now ≡ true }
{
    let last = bytes.len() - N;
    let mut i = 0;
    while i < last {
        if 0x80 <= bits::<N>(bytes, i) {
            return false;
        }
        i += N;
    }
    if 0x80 <= bits::<N>(bytes, last) {
        return false;
    }
    true
}

// The same, one at a time.
fn is_ascii(bytes: &[u8]) -> bool
    ensures { result ≡ true → utf8 bytes.now ≡ true }
{
    let mut i = 0;
    while i < bytes.len() {
        if 0x80 <= bytes[i] {
            return false;
        }
        i += 1;
    }
    true
}

// Whether bytes that are not all ASCII are UTF-8.
#[cold]
fn other_text(bytes: &[u8]) -> bool
    ensures { result ≡ utf8 bytes.now }
{
    valid(bytes)
}

// A text, to the body's end. Most are ASCII, which is tested soonest.
fn is_text(bytes: &[u8]) -> bool
    ensures { result ≡ S.fits F.text bytes.now }
{
    let ascii = if 8 <= bytes.len() {
        is_ascii_by::<8>(bytes)
    } else if 4 <= bytes.len() {
        is_ascii_by::<4>(bytes)
    } else {
        is_ascii(bytes)
    };
    ascii || other_text(bytes)
}

// ---- a part

// A part of a body: a place; a place or 0:0; a byte within two bounds; the base of an Integer; a count, in two bytes; a
// number in eight bytes; a text, up to the body's end.
#[derive(Clone, Copy)]
enum Part {
    Place,
    PlaceOrNowhere,
    Byte(u8, u8),
    Base,
    Count,
    Eight,
    Text,
}

// Whether the bytes begin with the part.
#[inline(always)]
fn fits(part: Part, bytes: &[u8]) -> bool
    ensures { result ≡ S.fits (as_part part) bytes.now }
{
    match part {
        Part::Place => is_place(bytes),
        Part::PlaceOrNowhere => is_place_or_nowhere(bytes),
        Part::Byte(least, most) => is_byte(bytes, least, most),
        Part::Base => is_base(bytes),
        Part::Count => is_count(bytes),
        Part::Eight => is_eight(bytes),
        Part::Text => is_text(bytes),
    }
}

// How many of the bytes it takes.
fn width(part: Part, bytes: &[u8]) -> usize
    ensures { result ≡ S.width (as_part part) bytes.now }
{
    match part {
        Part::Place | Part::PlaceOrNowhere => 4,
        Part::Byte(_, _) | Part::Base => 1,
        Part::Count => 2,
        Part::Eight => 8,
        Part::Text => bytes.len(),
    }
}

// The last byte and the last count, where `numbers` is what came before.
fn noted(part: Part, bytes: &[u8], numbers: Numbers) -> Numbers
    requires { S.width (as_part part) bytes.now ≤ length bytes.now }
    ensures { as_numbers result ≡ S.noted (as_part part) bytes.now (as_numbers numbers) }
{
    match part {
        Part::Byte(_, _) | Part::Base => Numbers {
            byte: bytes[0] as usize,
            count: numbers.count,
        },
        Part::Count => Numbers {
            byte: numbers.byte,
            count: word(bytes, 0) as usize,
        },
        Part::Place | Part::PlaceOrNowhere | Part::Eight | Part::Text => numbers,
    }
}

// ---- a body

// The bytes of a body that are left, the numbers before them, and whether all parts so far were there.
#[derive(Clone, Copy)]
pub struct Body<'a> {
    pub rest: &'a [u8],
    pub numbers: Numbers,
    pub good: bool,
}

impl<'a> Body<'a> {
    // After a part. A call in each arm of the table would take longer than the test.
    #[inline(always)]
    fn read(self, part: Part) -> Body<'a>
        ensures { Reads (as_part part) self.entry result }
    {
        if !self.good {
            return self;
        }
        if !fits(part, self.rest) {
            return Body {
                good: false,
                ..self
            };
        }
        Body {
            rest: &self.rest[width(part, self.rest)..],
            numbers: noted(part, self.rest, self.numbers),
            good: true,
        }
    }

    pub fn place(self) -> Body<'a>
        ensures { Reads F.place self.entry result }
    {
        self.read(Part::Place)
    }

    pub fn place_or_nowhere(self) -> Body<'a>
        ensures { Reads F.place_or_nowhere self.entry result }
    {
        self.read(Part::PlaceOrNowhere)
    }

    pub fn byte(self, least: u8, most: u8) -> Body<'a>
        ensures { Reads (F.byte least most) self.entry result }
    {
        self.read(Part::Byte(least, most))
    }

    pub fn base(self) -> Body<'a>
        ensures { Reads F.base self.entry result }
    {
        self.read(Part::Base)
    }

    pub fn count(self) -> Body<'a>
        ensures { Reads F.count self.entry result }
    {
        self.read(Part::Count)
    }

    pub fn eight(self) -> Body<'a>
        ensures { Reads F.eight self.entry result }
    {
        self.read(Part::Eight)
    }

    pub fn text(self) -> Body<'a>
        ensures { Reads F.text self.entry result }
    {
        self.read(Part::Text)
    }

    // The role, if the body ends here.
    pub fn end(self, role: Role) -> Option<Role>
        ensures { Ends role self.entry result }
    {
        if !self.good {
            return None;
        }
        if 0 < self.rest.len() {
            return None;
        }
        Some(role)
    }

    pub fn node(self, kind: u8, children: Children) -> Option<Role>
        ensures { Ends (Role.Node kind children) self.entry result }
    {
        self.end(Role::Node(kind, children))
    }

    pub fn error(self, list: u8) -> Option<Role>
        ensures { Ends (Role.Error list) self.entry result }
    {
        self.end(Role::Error(list))
    }
}

// A body of which nothing is read yet.
pub fn start<'a>(body: &'a [u8]) -> Body<'a>
    ensures { (ps : List F.Part) → left ps result ≡ S.numbers ps body.now F.no_numbers }
{
    Body {
        rest: body,
        numbers: Numbers { byte: 0, count: 0 },
        good: true,
    }
}
