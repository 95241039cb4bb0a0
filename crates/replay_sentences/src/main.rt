// Reads a list of scripts with the sentences that the operation should give (beside/README.md has its format) from
// standard input, and writes how many agree and how many differ, and the number of the first that differs.
#![tactic(auto)]

use replay_cases::{FILLER, agrees_with, array, holds, number, part};
use std::io::Stdin;

// The most bytes of a script and of a sentence slice in a list: more than a script may have, or a sentence needs.
const SCRIPT: usize = 20000;

const SENTENCE: usize = 100000;

// The byte of the slice after the sentence: each refusal, which a list has as a number, leaves the slice untouched.
fn rest(refusal: u32) -> u8 {
    if refusal == 0 { 0 } else { FILLER }
}

// Whether the operation gives the result of a case.
fn agrees(mut header: &[u8], list: &mut Stdin) -> Option<bool> {
    let mut script = [0; SCRIPT];
    let mut slice = [FILLER; SENTENCE];
    let mut sentence = [0; SENTENCE];
    let script_bytes = number(&mut header, 3)?;
    let error_list = number(&mut header, 4)?;
    let position = usize::from_be_bytes(array(&mut header)?);
    let slice_bytes = number(&mut header, 3)?;
    let refusal = number(&mut header, 1)?;
    let sentence_bytes = number(&mut header, 3)?;
    let script = part(list, &mut script, script_bytes as usize)?;
    let sentence = part(list, &mut sentence, sentence_bytes as usize)?;
    let slice = slice.get_mut(..slice_bytes as usize)?;
    let got = reader::sentence::sentence(script, error_list, position, slice);
    Some(
        agrees_with(got.map_err(u32::from), refusal, sentence)
            && holds(slice, sentence, rest(refusal)),
    )
}

fn main(rt: HostRuntime) {
    // The exit status is always 0.
    let _ = replay_cases::replay(&rt, &mut rt.stdin(), &mut [0; 22], agrees);
}
