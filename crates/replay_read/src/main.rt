// Reads a list of records with the answers that Read and Token text should give (beside/README.md has its format)
// from standard input, and writes how many agree and how many differ, and the number of the first that differs.
#![tactic(auto)]

use replay_cases::{FILLER, agrees_with, array, holds, number, part};
use std::io::Stdin;
use token_records::token_text;

// The most words and bytes of the slices in a list: more than Read takes, or a file needs.
const LIST_TOKEN_WORDS: usize = 17000;

const LIST_ERROR_WORDS: usize = 2000;

const TEXT: usize = 20000;

const FILE: usize = 70000;

// ---- slices

// Reads the next `n` words to the start of a slice, as `part` reads bytes; of more than it has room for, as many as it has.
fn words<'a>(list: &mut Stdin, space: &'a mut [u32], n: u32) -> Option<&'a mut [u32]> {
    let n = n as usize;
    for word in space.iter_mut().take(n) {
        *word = number(list, 4)?;
    }
    space.get_mut(..n)
}

// The byte of the file slice after the tree file: refusals 3, 8 and 9, which a list has as numbers, leave the slice
// untouched.
fn rest(refusal: u32) -> u8 {
    if matches!(refusal, 3 | 8 | 9) {
        FILLER
    } else {
        0
    }
}

// ---- Token text

// Whether Token text gives `size` bytes from `start` on.
fn text_agrees(tokens: &[u32], text: &[u8], at: usize, start: usize, size: usize) -> bool {
    let expected = text.get(start..).and_then(|part| part.get(..size));
    expected.is_some_and(|part| part == token_text(tokens, text, at))
}

// Whether Token text gives what the list has next: for each record the length of a part that begins where the record
// says, or 0 for the empty part. Reads them all, also after one that differs. Past the last record there is no text.
fn texts_agree(list: &mut Stdin, tokens: &[u32], text: &[u8]) -> Option<bool> {
    let past = tokens.len() / 8;
    let mut agree = text_agrees(tokens, text, past, 0, 0)
        & text_agrees(tokens, text, usize::MAX, 0, 0);
    for (at, record) in tokens.chunks_exact(8).enumerate() {
        let size = number(list, 2)?;
        let start = if size == 0 { 0 } else { record[3] };
        agree &= text_agrees(tokens, text, at, start as usize, size as usize);
    }
    Some(agree)
}

// ---- cases

// Whether Read and Token text give the results of a case.
fn agrees(mut header: &[u8], list: &mut Stdin) -> Option<bool> {
    let mut tokens = [0; LIST_TOKEN_WORDS];
    let mut errors = [0; LIST_ERROR_WORDS];
    let mut text = [0; TEXT];
    let mut file = [FILLER; FILE];
    let mut tree = [0; FILE];
    let token_words = number(&mut header, 3)?;
    let error_words = number(&mut header, 3)?;
    let text_bytes = number(&mut header, 3)?;
    let file_bytes = number(&mut header, 3)?;
    let token_count = usize::from_be_bytes(array(&mut header)?);
    let error_count = usize::from_be_bytes(array(&mut header)?);
    let refusal = number(&mut header, 1)?;
    let tree_bytes = number(&mut header, 3)?;
    let tokens = words(list, &mut tokens, token_words)?;
    let errors = words(list, &mut errors, error_words)?;
    let text = part(list, &mut text, text_bytes as usize)?;
    let tree = part(list, &mut tree, tree_bytes as usize)?;
    let file = file.get_mut(..file_bytes as usize)?;
    let got = parser::read(tokens, token_count, errors, error_count, text, file);
    Some(
        texts_agree(list, tokens, text)?
            && agrees_with(got.map_err(u32::from), refusal, tree)
            && holds(file, tree, rest(refusal)),
    )
}

fn main(rt: HostRuntime) {
    // The exit status is always 0.
    let _ = replay_cases::replay(&rt, &mut rt.stdin(), &mut [0; 32], agrees);
}
