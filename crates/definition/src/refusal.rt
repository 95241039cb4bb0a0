// What an operation refuses.
ghost use Rattle.std.specs.Prelude.{◌≡◌};
ghost use Rattle.definition.specs.Numbers.{RefusalNumber, number_in, count_in};

#[derive(Clone, Copy, PartialEq, Eq)]
pub enum Refusal {
    ScriptLength = 1,
    NotUtf8 = 2,
    SliceLength = 3,
    ForeignCharacter = 4,
    MinusAtEnd = 5,
    Tokens = 6,
    TokenErrors = 7,
    BadRecord = 8,
    NoTokens = 9,
    Nesting = 10,
    EndAfterWord = 11,
    Errors = 12,
    SentenceLength = 13,
    BadField = 14,
    BadTree = 15,
}

impl From<Refusal> for u32 {
    ghost from_gives = { RefusalNumber };

    fn from(refusal: Refusal) -> u32 {
        refusal as u32
    }
}

// The form that the entries for C take: stores the count of an answer to `count`, 0 for a refusal, and returns the
// number of the refusal or 0.
pub fn number_and_count(answer: Result<usize, Refusal>, count: &mut usize) -> u32
    ensures { (result ≡ number_in answer) × (count.new ≡ count_in answer) }
{
    match answer {
        Ok(n) => {
            *count = n;
            0
        }
        Err(refusal) => {
            *count = 0;
            u32::from(refusal)
        }
    }
}
