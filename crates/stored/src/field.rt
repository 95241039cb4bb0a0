// One field of a stored file.
ghost use Rattle.std.specs.Prelude.{◌<◌, ◌≤◌, length, drop};
ghost use Rattle.definition.specs.Format.{rows, find};
ghost use Rattle.stored.specs.Walk.{WithRow, Stepped};

use crate::body::word;
use crate::nodes::Role;
use crate::rows::role_of;
use definition::refusal::Refusal;
use definition::tag::Tag;

// A field with a tag: the tag's number, the length of the body, and the role.
#[derive(Clone, Copy)]
pub struct Found {
    pub number: u8,
    pub size: usize,
    pub role: Role,
}

// A field, or the end of the file.
#[derive(Clone, Copy)]
pub enum Field {
    End,
    Skipped(usize),
    Found(Found),
}

// The first number of the tags that are skipped.
const SKIPPED: u8 = 0x70;

// The field with this number as its tag, and this body.
fn with_tag(number: u8, body: &[u8]) -> Option<Found>
    requires { number < 0x70 }
    ensures { WithRow (find number rows) body.now result }
{
    let Ok(tag) = Tag::try_from(number) else {
        return None;
    };
    let role = role_of(tag, body)?;
    Some(Found {
        number,
        size: body.len(),
        role,
    })
}

// The field that the bytes begin with: its tag, the length of its body in two bytes, and its body.
fn first(bytes: &[u8]) -> Result<Field, Refusal>
    ensures { Stepped bytes.now result }
{
    if bytes.len() == 0 {
        return Ok(Field::End);
    }
    if bytes.len() < 3 {
        return Err(Refusal::BadField);
    }
    let size = word(bytes, 1) as usize;
    if bytes.len() - 3 < size {
        return Err(Refusal::BadField);
    }
    let number = bytes[0];
    if SKIPPED <= number {
        return Ok(Field::Skipped(size));
    }
    match with_tag(number, &bytes[3..3 + size]) {
        Some(found) => Ok(Field::Found(found)),
        None => Err(Refusal::BadField),
    }
}

// The field at an offset of a file.
pub fn step(file: &[u8], at: usize) -> Result<Field, Refusal>
    requires { at ≤ length file.now }
    ensures { Stepped (drop at file.now) result }
{
    first(&file[at..])
}
