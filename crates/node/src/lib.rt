// node.rs: writes the records of the tree to the lent file slice.
#![tactic(auto)]

ghost use Rattle.std.specs.Prelude.{◌≡◌, ◌+◌, ◌≤◌, length};
ghost use Rattle.definition.specs.Node.{u16, at_place, nums_bytes};
ghost use Rattle.slices.specs.Contract.{Put};
ghost use Rattle.node.specs.Put.{place_in, place_size, nums_of, width_of, rec_of};
ghost use Rattle.node.specs.Contract.{Wrote};

use definition::place::Place;
use definition::tag::Tag;
use slices::Writer;

// The numbers in a record: none, one byte, two bytes, eight bytes, or one byte and two.
#[derive(Clone, Copy)]
pub enum Numbers {
    None,
    Byte(u8),
    Two(usize),
    Eight(usize),
    ByteTwo(u8, usize),
}

impl Numbers {
    // How many bytes the numbers take.
    fn width(self) -> usize
        ensures { (result ≡ width_of self) × (result ≤ 8) }
    {
        match self {
            Numbers::None => 0,
            Numbers::Byte(_) => 1,
            Numbers::Two(_) => 2,
            Numbers::Eight(_) => 8,
            Numbers::ByteTwo(_, _) => 3,
        }
    }
}

// A record of the tree: its tag, its place if it has one, its numbers, its text.
#[derive(Clone, Copy)]
pub struct Record<'a> {
    pub tag: Tag,
    pub place: Option<Place>,
    pub numbers: Numbers,
    pub text: &'a [u8],
}

// A number in two bytes, the high byte first.
pub fn two(n: usize) -> [u8; 2]
    ensures { result ≡ u16 n }
{
    ((n % 0x1_0000) as u16).to_be_bytes()
}

// Writes a number in two bytes.
fn put_two(w: &mut Writer<'_, u8>, n: usize)
    requires { w.old.at + 2 ≤ length w.old.out.now }
    ensures { Put (u16 n) w.old w.new }
{
    let [high, low] = two(n);
    w.put(high);
    w.put(low);
}

// How many bytes a place takes.
fn place_width(place: Option<Place>) -> usize
    ensures { (result ≡ place_size place) × (result ≤ 4) }
{
    match place {
        Some(_) => 4,
        None => 0,
    }
}

// Writes the place of a record, if it has one.
fn put_place(w: &mut Writer<'_, u8>, place: Option<Place>)
    requires { w.old.at + 4 ≤ length w.old.out.now }
    ensures { Put (at_place (place_in place)) w.old w.new }
{
    if let Some(Place { line, column }) = place {
        put_two(w, line as usize);
        put_two(w, column as usize);
    }
}

// Writes the numbers of a record.
#[tactic(auto, unfolding(definition::specs::Node::nums_bytes))]
fn put_numbers(w: &mut Writer<'_, u8>, numbers: Numbers)
    requires { w.old.at + 8 ≤ length w.old.out.now }
    ensures { Put (nums_bytes (nums_of numbers)) w.old w.new }
{
    match numbers {
        Numbers::None => {}
        Numbers::Byte(b) => w.put(b),
        Numbers::Two(n) => put_two(w, n),
        Numbers::Eight(n) => w.put_all(&n.to_be_bytes()),
        Numbers::ByteTwo(b, n) => {
            w.put(b);
            put_two(w, n);
        }
    }
}

// Writes a record, and returns the offset after it. Always inlined: an error's field then has a constant size, and its body
// is written without being stored before.
#[inline(always)]
pub fn write_record(file: &mut [u8], pos: usize, r: Record<'_>) -> usize
    requires { pos + 15 + length r.text.now ≤ length file.old }
    ensures { Wrote (rec_of r.entry) file pos result }
{
    let mut w = Writer { out: file, at: pos };
    w.put(u8::from(r.tag));
    let length = place_width(r.place) + r.numbers.width() + r.text.len();
    put_two(&mut w, length);
    put_place(&mut w, r.place);
    put_numbers(&mut w, r.numbers);
    w.put_all(r.text);
    w.at
}
