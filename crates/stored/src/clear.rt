// Clears the rest of the slice of records. Of a slice that is used again most words are zero already, and reading them
// takes half the time of writing them.
ghost use Rattle.std.specs.Prelude.{◌+◌, ◌≤◌, length};
ghost use Rattle.definition.specs.Slices.{old, new};
ghost use Rattle.slices.specs.Cleared.{Cleared};
ghost use Rattle.stored.specs.Parts.{Bounded};
ghost use Rattle.stored.specs.Clear.{Zeroed};

use slices::fill_from;

// How many words are read before any of them is written.
const BLOCK: usize = 256;

// The bits of the words of a block: no word of them is above it.
fn bits(words: &[u32], at: usize) -> u32
    requires { at + 256 ≤ length words.now }
    ensures { Bounded words.now at 256 result }
{
    let mut all = 0;
    let mut k = 0;
    while k < BLOCK {
        all |= words[at + k];
        k += 1;
    }
    all
}

// Clears the words from one offset up to another.
fn clear(words: &mut [u32], from: usize, to: usize)
    requires { (from ≤ to) × (to ≤ length words.old) }
    ensures { Zeroed words.old from words.new to }
{
    let mut i = from;
    while i < to {
        words[i] = 0;
        i += 1;
    }
}

// Clears a block, if it has a word that is not zero.
fn clear_block(words: &mut [u32], at: usize)
    requires { at + 256 ≤ length words.old }
    ensures { Zeroed words.old at words.new (at + 256) }
{
    if bits(words, at) == 0 {
        return;
    }
    clear(words, at, at + BLOCK);
}

// Clears the words from an offset on.
pub fn clear_from(words: &mut [u32], from: usize)
    requires { from ≤ length words.old }
    ensures { Cleared words.old from words.new }
{
    let mut i = from;
    while i + BLOCK <= words.len() {
        clear_block(words, i);
        i += BLOCK;
    }
    fill_from(words, i, 0);
}
