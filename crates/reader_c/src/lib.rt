// The library for C: include/delta_null.h declares the functions. A crate is a static library or one that others
// use, and the programs use `reader`; so the exports stand here, and no program exports them.
#![tactic(auto)]

ghost use Rattle.std.specs.Prelude.{◌≡◌};
ghost use Rattle.definition.specs.Operations as O;
ghost use Rattle.definition.specs.Sentence as S;
ghost use Rattle.definition.specs.Stored as L;

// Reads a script and writes its tree file: returns the number, and stores the count of file bytes to `bytes`.
#[unsafe(no_mangle)]
pub extern "C" fn dn_read(script: &[u8], file: &mut [u8], bytes: &mut usize) -> u32
    ensures { record { number = result; bytes = bytes.new; file = file.new }
        ≡ O.whole script.now file.old }
{
    reader::dn_read(script, file, bytes)
}

// Writes the sentence of the error at a position of a list: returns the number, and stores the count of its bytes.
#[unsafe(no_mangle)]
pub extern "C" fn dn_sentence(
    script: &[u8],
    list: u32,
    position: usize,
    out: &mut [u8],
    bytes: &mut usize,
) -> u32
    ensures { record { number = result; bytes = bytes.new; file = out.new }
        ≡ S.sentence script.now list position out.old }
{
    reader::sentence::dn_sentence(script, list, position, out, bytes)
}

// Loads a stored tree file: writes the step of each field, and stores the count of steps.
#[unsafe(no_mangle)]
pub extern "C" fn dn_load(file: &[u8], records: &mut [u32], count: &mut usize) -> u32
    ensures { record { number = result; count = count.new; records = records.new }
        ≡ L.load_into file.now records.old }
{
    stored::dn_load(file, records, count)
}
