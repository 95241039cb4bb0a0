// Writes the errors as fields after the tree: token errors (tag 62), reported errors (60) and the full list (61).
#![tactic(auto)]

ghost use Rattle.std.specs.Prelude.{◌≡◌, ◌+◌, ◌*◌, ◌≤◌, length, map};
ghost use Rattle.definition.specs.Fallible.{Err, err_body};
ghost use Rattle.definition.specs.Numbers.{kind_number, tag_number};
ghost use Rattle.fallible.specs.Lists.{err_of, error_at};
ghost use Rattle.error_fields.specs.Errors.{recorded};
ghost use Rattle.error_fields.specs.Contract.{Fielded};

use definition::kind::Kind;
use definition::place::Place;
use definition::tag::Tag;
use fallible::error::Error;
use node::{Numbers, Record, two, write_record};

// The body of an error's field, seven bytes: number, line and column in two bytes each, expected kind, kind got.
fn body(number: u8, place: Place, expected: Kind, got: Kind) -> [u8; 7]
    ensures { result ≡ err_body (error_at number place (kind_number expected) (kind_number got)) }
{
    let [line_high, line_low] = two(place.line as usize);
    let [column_high, column_low] = two(place.column as usize);
    [
        number,
        line_high,
        line_low,
        column_high,
        column_low,
        expected as u8,
        got as u8,
    ]
}

// What is written as an error's field.
pub trait Entry {
    ghost err: { Self → Err };

    fn body(&self) -> [u8; 7]
        ensures { result ≡ err_body (err self.now) };
}

impl Entry for Error {
    ghost err = { err_of };

    fn body(&self) -> [u8; 7] {
        body(self.error as u8, self.place, self.expected, self.got)
    }
}

// The record of a token error. Its number is not read as a `TokenError`: the records are valid, so that would add an arm
// that none takes.
impl Entry for [u32; 4] {
    ghost err = { recorded };

    fn body(&self) -> [u8; 7] {
        let [number, line, column, _] = *self;
        body(
            (number % 256) as u8,
            Place { line, column },
            Kind::End,
            Kind::End,
        )
    }
}

// Writes the fields of a list of errors.
pub fn error_fields<E: Entry>(file: &mut [u8], pos: usize, tag: Tag, list: &[E]) -> usize
    requires { pos + 10 * length list.now + 13 ≤ length file.old }
    ensures { Fielded (map E.err list.now) file pos (tag_number tag) result }
{
    let mut p = pos;
    for e in list {
        let field = Record {
            tag,
            place: None,
            numbers: Numbers::None,
            text: &e.body(),
        };
        p = write_record(file, p, field);
    }
    p
}
