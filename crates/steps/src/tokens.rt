// The tokens that the parser reads, and the next one of them.
ghost use Rattle.std.specs.Prelude.{◌≡◌, ◌≤◌};
ghost use Rattle.steps.specs.Tokens.{Held, Parts, Peeked, Seen};

use definition::kind::Kind;
use definition::place::Place;

// A token, decoded from its record, and the index of the next token. Its text is the `length` bytes from `start` on. At the
// end the kind is `End`, the place is nowhere and the text empty, as in the definition, since what an error got may be the
// end.
#[derive(Clone, Copy)]
pub struct Decoded {
    pub kind: Kind,
    pub place: Place,
    pub start: usize,
    pub length: usize,
    pub base: u32,
    pub next: usize,
}

// The records of `count` tokens, for what looks at no text. They are words, as the project asks, with their count beside
// them: over chunks, each law on the definition's words would first have to make words of them again.
#[derive(Clone, Copy)]
pub struct Records<'a> {
    pub words: &'a [u32],
    pub count: usize,
    ghost held: { Held words.now count },
}

impl Records<'_> {
    // Decodes the token at index `at`, without consuming it.
    pub fn peek(self, at: usize) -> Decoded
        requires { at ≤ self.count }
        ensures { Peeked self.entry.words.now self.entry.count at result }
    {
        if at < self.count {
            let i = 8 * at;
            let words = self.words;
            Decoded {
                kind: Kind::try_from(words[i]).unwrap_or(Kind::End),
                place: Place {
                    line: words[i + 1],
                    column: words[i + 2],
                },
                start: words[i + 3] as usize,
                length: words[i + 4] as usize,
                base: words[i + 5],
                next: at + 1,
            }
        } else {
            Decoded {
                kind: Kind::End,
                place: Place::NOWHERE,
                start: 0,
                length: 0,
                base: 0,
                next: at,
            }
        }
    }
}

// A token with its text.
#[derive(Clone, Copy)]
pub struct Token<'a> {
    pub kind: Kind,
    pub place: Place,
    pub text: &'a [u8],
    pub base: u32,
    pub next: usize,
}

// The records of `count` tokens, and the text whose parts they name.
#[derive(Clone, Copy)]
pub struct Tokens<'a> {
    pub records: &'a [u32],
    pub count: usize,
    pub text: &'a [u8],
    ghost held: { Held records.now count },
    ghost parts: { Parts records.now text.now count },
}

impl<'a> Tokens<'a> {
    // The records alone.
    pub fn records(self) -> Records<'a>
        ensures { (result.words ≡ self.entry.records) × (result.count ≡ self.entry.count) }
    {
        Records {
            words: self.records,
            count: self.count,
        }
    }

    // Decodes the token at index `at`, without consuming it.
    pub fn peek(self, at: usize) -> Token<'a>
        requires { at ≤ self.count }
        ensures { Seen self.entry.records.now self.entry.text.now self.entry.count at result }
    {
        let t = self.records().peek(at);
        Token {
            kind: t.kind,
            place: t.place,
            text: &self.text[t.start..t.start + t.length],
            base: t.base,
            next: t.next,
        }
    }
}
