// Classes of characters: one table, and predicates on it, by a character's number.
ghost use Rattle.std.specs.Prelude.{◌≡◌};
ghost use Rattle.definition.specs.Classes as C;
ghost use Rattle.classes.specs.Bits.{one_byte, classes_of, has_any};

use definition::kind::Kind;

// What a character begins, by its class. That of a symbol has the symbol's kind.
#[derive(Clone, Copy)]
pub enum Class {
    White,
    Comment,
    Pair(Kind),
    Symbol(Kind),
    Quote,
    Word,
    Dash,
    Zero,
    Digit,
    Unknown,
}

// ---- the table

// The classes that its entries name, a bit each. A letter is what begins a word, so `_` is one. Two classes are of characters
// of one byte, for scans that go by bytes: white space, and what continues a word.
const WHITE: u8 = 1;

const LETTER: u8 = 2;

const NUMERIC: u8 = 4;

const BINARY: u8 = 8;

const DECIMAL: u8 = 16;

const HEXADECIMAL: u8 = 32;

const BLANK: u8 = 64;

const WORD_BYTE: u8 = 128;

// The entries of characters of one byte: none, white space, `0` and `1`, other digits, letters that are digits of base 16,
// other letters. Those of two bytes: white space, letters, other numerics; or none.
const O: u8 = 0;

const W: u8 = WHITE | BLANK;

const B: u8 = BINARY | DECIMAL | HEXADECIMAL | NUMERIC | WORD_BYTE;

const D: u8 = DECIMAL | HEXADECIMAL | NUMERIC | WORD_BYTE;

const H: u8 = LETTER | HEXADECIMAL | WORD_BYTE;

const L: u8 = LETTER | WORD_BYTE;

const V: u8 = WHITE;

const M: u8 = LETTER;

const N: u8 = NUMERIC;

// The entry of each character below 256, 32 in a row.
const CLASSES: [u8; 256] = [
    O, O, O, O, O, O, O, O, O, W, W, W, W, W, O, O, O, O, O, O, O, O, O, O, O, O, O, O, O, O, O, O,
    W, O, O, O, O, O, O, O, O, O, O, O, O, O, O, O, B, B, D, D, D, D, D, D, D, D, O, O, O, O, O, O,
    O, H, H, H, H, H, H, L, L, L, L, L, L, L, L, L, L, L, L, L, L, L, L, L, L, L, L, O, O, O, O, L,
    O, H, H, H, H, H, H, L, L, L, L, L, L, L, L, L, L, L, L, L, L, L, L, L, L, L, L, O, O, O, O, O,
    O, O, O, O, O, V, O, O, O, O, O, O, O, O, O, O, O, O, O, O, O, O, O, O, O, O, O, O, O, O, O, O,
    V, O, O, O, O, O, O, O, O, O, M, O, O, O, O, O, O, O, N, N, O, M, O, O, O, N, M, O, N, N, N, O,
    M, M, M, M, M, M, M, M, M, M, M, M, M, M, M, M, M, M, M, M, M, M, M, O, M, M, M, M, M, M, M, M,
    M, M, M, M, M, M, M, M, M, M, M, M, M, M, M, M, M, M, M, M, M, M, M, O, M, M, M, M, M, M, M, M,
];

// The classes of a character.
fn classes(c: u8) -> u8
    ensures { result ≡ classes_of c }
{
    CLASSES[c as usize]
}

// Whether a character has one of some classes.
fn has(c: u8, some: u8) -> bool
    ensures { result ≡ has_any some c }
{
    classes(c) & some != 0
}

// ---- predicates

#[tactic(auto, using(crate::proofs::Bits::white_told))]
pub fn is_white(c: u8) -> bool
    ensures { result ≡ C.is_white c }
{
    has(c, WHITE)
}

#[tactic(auto, using(crate::proofs::Bits::digit_told))]
pub fn is_digit(c: u8) -> bool
    ensures { result ≡ C.is_digit c }
{
    has(c, DECIMAL)
}

// A letter or `_`.
#[tactic(auto, using(crate::proofs::Bits::letter_told))]
pub fn is_letter(c: u8) -> bool
    ensures { result ≡ C.is_letter c }
{
    has(c, LETTER)
}

// A character after the first of a word: a letter, `_` or numeric.
#[tactic(auto, using(crate::proofs::Bits::word_told))]
pub fn is_word(c: u8) -> bool
    ensures { result ≡ C.is_word c }
{
    has(c, LETTER | NUMERIC)
}

// A first byte that is white space itself.
#[tactic(auto, using(crate::proofs::Bits::blank_told))]
pub fn is_blank(b: u8) -> bool
    ensures { result ≡ one_byte C.is_white b }
{
    has(b, BLANK)
}

// A first byte that is itself a character of a word.
#[tactic(auto, using(crate::proofs::Bits::word_byte_told))]
pub fn is_word_byte(b: u8) -> bool
    ensures { result ≡ one_byte C.is_word b }
{
    has(b, WORD_BYTE)
}

// A digit of base 2, 10 or 16. The base is the number itself, as in `u32::from_str_radix`.
pub fn is_digit_of(base: u32, c: u8) -> bool
    ensures { result ≡ C.is_digit_of base c }
{
    match base {
        2 => has(c, BINARY),
        10 => has(c, DECIMAL),
        _ => has(c, HEXADECIMAL),
    }
}
