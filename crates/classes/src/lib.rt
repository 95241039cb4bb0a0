// Characters: their classes, the fixed spellings, and which token a character begins.
#![tactic(auto)]

pub mod character;
pub mod spelling;

ghost use Rattle.std.specs.Prelude.{◌≡◌, ◌&&◌, eqb, unwrap_or};
ghost use Rattle.definition.specs.Ascii.{char};
ghost use Rattle.definition.specs.Tokenizer as Z;
ghost use Rattle.classes.specs.Begins.{class_of, Carries};

use character::{Class, is_digit, is_letter, is_white};
use spelling::{pair, symbol};

// Whether a comment begins with `c`, where `d` follows.
fn opens_comment(c: u8, d: Option<u8>) -> bool
    ensures { result ≡ eqb c (char "/") && eqb (unwrap_or d 0) (char "/") }
{
    matches!((c, d), (b'/', Some(b'/')))
}

// The class of the character `c`, which `d` follows, if any. The most frequent classes are tested first.
pub fn class(c: u8, d: Option<u8>) -> Class
    ensures class { class_of result ≡ Z.class c (unwrap_or d 0) }
    ensures kind { Carries result c (unwrap_or d 0) }
{
    if is_letter(c) {
        return Class::Word;
    }
    if is_white(c) {
        return Class::White;
    }
    if opens_comment(c, d) {
        return Class::Comment;
    }
    if let Some(kind) = pair(c, d) {
        return Class::Pair(kind);
    }
    if let Some(kind) = symbol(c) {
        return Class::Symbol(kind);
    }
    match c {
        b'"' => Class::Quote,
        b'-' => Class::Dash,
        b'0' => Class::Zero,
        _ if is_digit(c) => Class::Digit,
        _ => Class::Unknown,
    }
}
