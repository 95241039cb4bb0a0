// Reads a list of scripts with the tree files that the whole operation should give (beside/README.md has its
// format) from standard input, and writes how many agree and how many differ, and the number of the first that
// differs.
#![tactic(auto)]

use replay_cases::{FILLER, agrees_with, holds, number, part};
use std::io::Stdin;

// The most bytes of a script and of a file slice in a list: more than a script may have, or a file needs.
const SCRIPT: usize = 20000;

const FILE: usize = 70000;

// The byte of the file slice after the tree file: refusals 1 to 3, which a list has as numbers, leave the slice
// untouched.
fn rest(number: u32) -> u8 {
    if matches!(number, 1..=3) { FILLER } else { 0 }
}

// Whether the whole operation gives the result of a case.
fn agrees(mut header: &[u8], list: &mut Stdin) -> Option<bool> {
    let mut script = [0; SCRIPT];
    let mut file = [FILLER; FILE];
    let mut tree = [0; FILE];
    let script_bytes = number(&mut header, 3)?;
    let file_bytes = number(&mut header, 3)?;
    let refusal = number(&mut header, 1)?;
    let tree_bytes = number(&mut header, 3)?;
    let script = part(list, &mut script, script_bytes as usize)?;
    let tree = part(list, &mut tree, tree_bytes as usize)?;
    let file = file.get_mut(..file_bytes as usize)?;
    let got = reader::read_script(script, file);
    Some(agrees_with(got.map_err(u32::from), refusal, tree) && holds(file, tree, rest(refusal)))
}

fn main(rt: HostRuntime) {
    // The exit status is always 0.
    let _ = replay_cases::replay(&rt, &mut rt.stdin(), &mut [0; 10], agrees);
}
