// Reads a script from standard input and writes its complaints to standard output, a line for each: the token errors,
// then the full list, as LINE:COLUMN: SENTENCE, or `end of script: SENTENCE` where the place is 0:0. A refused script
// gets one line with its number and what it means. Writes nothing if there are no complaints, or if standard input
// cannot be read to its end. Reports a failed read or write on standard error; the exit status is
// always 0.
#![tactic(auto)]

ghost use Rattle.std.specs.Prelude.{◌≡◌, length, IfSome};
ghost use Rattle.std.specs.Iterator.{at_most};
ghost use Rattle.definition.specs.Numbers.{tag_number};

use definition::limit;
use definition::place::Place;
use definition::refusal::Refusal;
use definition::tag::Tag;
use replay_cases::whole;
use std::io::{self, ErrorKind, Read};

// The bytes of the longest sentence.
const SENTENCE_BYTES: usize = 98333;

// ---- the fields of the file

#[derive(Clone, Copy)]
struct Field<'a> {
    // A number: a file may have tags that are no `Tag` (docs/FORMAT.md).
    tag: u8,
    body: &'a [u8],
}

impl Field<'_> {
    // The place of an error of the list, if the field is one.
    fn place_in(self, list: Tag) -> Option<Place>
        ensures { IfSome result (λ place. (length self.entry.body.now ≡ 7) × (self.entry.tag ≡ tag_number list)) }
    {
        match *self.body {
            [_, a, b, c, d, _, _] if self.tag == u8::from(list) => Some(Place {
                line: u16::from_be_bytes([a, b]).into(),
                column: u16::from_be_bytes([c, d]).into(),
            }),
            _ => None,
        }
    }
}

// The fields of a file, up to one whose bytes the file does not hold.
#[derive(Drop)]
struct Fields<'a>(&'a [u8]);

impl<'a> Iterator for Fields<'a> {
    type Item = Field<'a>;

    ghost remaining = { λ s. at_most (length s.0.now) };

    fn next(&mut self) -> Option<Field<'a>> {
        let (tag, after) = self.0.split_first()?;
        let (size, after) = after.split_first_chunk::<2>()?;
        let (body, after) = after.split_at_checked(u16::from_be_bytes(*size) as usize)?;
        self.0 = after;
        Some(Field { tag: *tag, body })
    }
}

// ---- complaints

// Writes the line of the error at a position of a list.
fn write_complaint(
    rt: &impl Print,
    script: &[u8],
    list: Tag,
    position: usize,
    place: Place,
) -> io::Result<()> {
    let mut space = [0; SENTENCE_BYTES];
    let sentence = reader::sentence::sentence(script, list as u32, position, &mut space);
    let bytes = sentence.map_err(|_| io::Error::from(ErrorKind::InvalidData))?;
    match place {
        Place::NOWHERE => print!(rt; "end of script: ")?,
        Place { line, column } => print!(rt; "{line}:{column}: ")?,
    }
    rt.write_all(&space[..bytes.min(SENTENCE_BYTES)])?;
    rt.write_all(b"\n")
}

// Writes the errors of a list, which are fields of the file.
fn write_list(rt: &impl Print, script: &[u8], file: &[u8], list: Tag) -> io::Result<()> {
    let places = Fields(file).filter_map(|field| field.place_in(list));
    for (position, place) in places.enumerate() {
        write_complaint(rt, script, list, position, place)?;
    }
    Ok(())
}

// What a refusal means. The file slice is long enough, and no other is left than that of the full list.
fn meaning(refusal: Refusal) -> &'static str {
    match refusal {
        Refusal::ScriptLength => "the script has more than 16,384 bytes",
        Refusal::NotUtf8 => "the script is not UTF-8",
        Refusal::ForeignCharacter => {
            "a character above 255, and not in a string, a comment or assembly or after a minus"
        }
        Refusal::MinusAtEnd => "the script ends with a dash that is a minus",
        Refusal::Tokens => "more than 2,048 tokens",
        Refusal::TokenErrors => "more than 255 token errors",
        Refusal::NoTokens => "the script has no token",
        Refusal::Nesting => "nested too deep: more than 96 counted calls are open",
        Refusal::EndAfterWord => "the script ends right after `type`, `use` or the dot of `.name`",
        _ => "more than 255 losses and errors of the parser",
    }
}

// Reads the script to a file, and writes its complaints or its refusal.
fn write_all(rt: &impl Print, script: &[u8]) -> io::Result<()> {
    let mut space = [0; limit::FILE_BYTES];
    let bytes = match reader::read_script(script, &mut space) {
        Ok(bytes) => bytes,
        Err(refusal) => {
            return println!(rt; "refused, {}: {}", u32::from(refusal), meaning(refusal));
        }
    };
    let file = &space[..bytes.min(limit::FILE_BYTES)];
    write_list(rt, script, file, Tag::TokenError)?;
    write_list(rt, script, file, Tag::FullError)
}

// ---- the script

fn run(rt: &impl Print, input: &mut impl Read) -> Result<(), &'static str> {
    // One byte more than the longest script, so that a longer input is refused and not cut.
    let mut space = [0; limit::SCRIPT_BYTES + 1];
    let script = whole(input, &mut space).ok_or("standard input cannot be read to its end")?;
    write_all(rt, script).map_err(|_| "the complaints are not written whole")
}

fn main(rt: HostRuntime) {
    if let Err(message) = run(&rt, &mut rt.stdin()) {
        let _ = eprintln!(rt; "complaints: {message}");
    }
}
