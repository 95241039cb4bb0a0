// A sentence as it is written.
ghost use Rattle.std.specs.Prelude.{[], ◌∷◌};
ghost use Rattle.sentences.specs.Contract.{Told};

// Where a sentence is written: its bytes go to `out` while this has room, and all are counted, so that a sentence is
// measured and written by the same functions.
#[derive(Drop)]
pub struct Sentence<'a> {
    pub out: &'a mut [u8],
    pub at: usize,
}

impl<'a> Sentence<'a> {
    // Writes one byte if there is room for it.
    pub fn say(&mut self, b: u8)
        ensures { Told (b ∷ []) self.old self.new }
    {
        if self.at < self.out.len() {
            self.out[self.at] = b;
        }
        self.at = self.at.saturating_add(1);
    }

    // Writes the bytes of `s`.
    pub fn say_all(&mut self, s: &[u8])
        ensures { Told s.now self.old self.new }
    {
        for b in s {
            self.say(*b);
        }
    }
}
