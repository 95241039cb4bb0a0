// The parser's state, and its errors in two lists: those reported, and the full list of all made.
ghost use Rattle.std.specs.Prelude.{◌≡◌, length};

use crate::error::Error;
use definition::limit;

// The index of the next token, the offset of the next file byte, the lengths of both error lists.
#[derive(Clone, Copy)]
pub struct State {
    pub at: usize,
    pub pos: usize,
    pub reported: usize,
    pub full: usize,
}

// The state, and both lists, each with room for one error more than a script may have. They are arrays, since the project
// has no heap; their counts are in the state, which a construct keeps for what `?` drops.
#[derive(Drop)]
pub struct Parser {
    pub state: State,
    pub reported: [Error; limit::ERRORS + 1],
    pub full: [Error; limit::ERRORS + 1],
    ghost reported_room: { length reported ≡ 256 },
    ghost full_room: { length full ≡ 256 },
}

impl Parser {
    // Before the first token: no error and no loss, and the file is empty.
    pub fn new() -> Parser
        ensures { result.state ≡ record { at = 0; pos = 0; reported = 0; full = 0 } }
    {
        Parser {
            state: State {
                at: 0,
                pos: 0,
                reported: 0,
                full: 0,
            },
            reported: [Error::FILLER; limit::ERRORS + 1],
            full: [Error::FILLER; limit::ERRORS + 1],
        }
    }
}
