// Reads a list of tree files with the steps that Load should give (beside/README.md has its format) from standard
// input, and writes how many agree and how many differ, and the number of the first that differs.
#![tactic(auto)]

use replay_cases::{FILLER_WORD, array, holds, number, part};
use std::io::Stdin;

// The most bytes of a file in a list, and the most words of the slice: more than Load takes, or needs.
const FILE: usize = 70000;

const WORDS: usize = 100000;

// The most steps of a case: more than a file can have.
const STEPS: usize = 22000;

// The next step of the list.
fn step(list: &mut Stdin) -> Option<[u32; 4]> {
    let record: [u8; 7] = array(list)?;
    let mut words = record.as_slice();
    Some([
        number(&mut words, 1)?,
        number(&mut words, 2)?,
        number(&mut words, 2)?,
        number(&mut words, 2)?,
    ])
}

// The next `count` steps of the list, which it reads to the start of a slice.
fn steps<'a>(list: &mut Stdin, space: &'a mut [[u32; 4]], count: u32) -> Option<&'a [[u32; 4]]> {
    let steps = space.get_mut(..count as usize)?;
    for next in steps.iter_mut() {
        *next = step(list)?;
    }
    Some(steps)
}

// The word of the slice after the steps: refusal 3, which a list has as a number, leaves the slice untouched.
fn rest(refusal: u32) -> u32 {
    if refusal == 3 { FILLER_WORD } else { 0 }
}

// Whether Load gives the result of a case.
fn agrees(mut header: &[u8], list: &mut Stdin) -> Option<bool> {
    let mut file = [0; FILE];
    let mut records = [FILLER_WORD; WORDS];
    let mut expected = [[0; 4]; STEPS];
    let file_bytes = number(&mut header, 3)?;
    let words = number(&mut header, 3)?;
    let refusal = number(&mut header, 1)?;
    let count = number(&mut header, 2)?;
    let file = part(list, &mut file, file_bytes as usize)?;
    let expected = steps(list, &mut expected, count)?;
    let records = records.get_mut(..words as usize)?;
    let same = match stored::load(file, records) {
        Ok(got) => refusal == 0 && got == expected.len(),
        Err(got) => refusal == u32::from(got) && expected.is_empty(),
    };
    Some(same && holds(records, expected.as_flattened(), rest(refusal)))
}

fn main(rt: HostRuntime) {
    // The exit status is always 0.
    let _ = replay_cases::replay(&rt, &mut rt.stdin(), &mut [0; 9], agrees);
}
