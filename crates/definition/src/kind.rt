// The kinds of tokens: their positions in the Rust's `TokenKind`, from 1. 0 is the end of the input.
ghost use Rattle.std.specs.Prelude.{◌≡◌};
ghost use Rattle.definition.specs.Numbers.{kind_number, KindNumber, KindOf};
ghost use Rattle.definition.specs.Records as R;

// Its number is its position.
#[derive(Clone, Copy, PartialEq, Eq)]
pub enum Kind {
    End,
    Identifier,
    Integer,
    String,
    KwFn,
    KwVar,
    KwReturn,
    KwLoop,
    KwWhile,
    KwBreak,
    KwIf,
    KwElse,
    KwTrue,
    KwFalse,
    KwAs,
    KwType,
    KwStruct,
    KwSizeof,
    KwUse,
    KwExtern,
    KwDistinct,
    KwInternal,
    Plus,
    Minus,
    Star,
    ForwardSlash,
    Equals,
    DoubleEquals,
    Ampersand,
    DoubleAmpersand,
    Bar,
    Caret,
    Tilde,
    Bang,
    Dot,
    DotStar,
    LeftShift,
    RightShift,
    Hash,
    LBrace,
    RBrace,
    LParen,
    RParen,
    LBracket,
    RBracket,
    LAngle,
    LAngleEquals,
    RAngle,
    RAngleEquals,
    Colon,
    Semicolon,
    RArrow,
    LArrow,
    Comma,
    InlineAssemblyFragment,
}

impl Kind {
    // Whether its tokens have a text.
    pub fn has_text(self) -> bool
        ensures { result ≡ R.has_text (kind_number self) }
    {
        matches!(
            self,
            Kind::Identifier | Kind::Integer | Kind::String | Kind::InlineAssemblyFragment
        )
    }

    // Whether its tokens can lose something.
    pub fn can_lose(self) -> bool
        ensures { result ≡ R.can_lose (kind_number self) }
    {
        matches!(self, Kind::Minus | Kind::InlineAssemblyFragment)
    }
}

impl From<Kind> for u32 {
    ghost from_gives = { KindNumber };

    fn from(kind: Kind) -> u32 {
        kind as u32
    }
}

// A number that no kind has.
#[derive(Clone, Copy, PartialEq, Eq)]
pub struct NoKind(pub u32);

impl TryFrom<u32> for Kind {
    type Error = NoKind;

    ghost try_from_gives = { KindOf };

    fn try_from(number: u32) -> Result<Self, NoKind> {
        match number {
            0 => Ok(Kind::End),
            1 => Ok(Kind::Identifier),
            2 => Ok(Kind::Integer),
            3 => Ok(Kind::String),
            4 => Ok(Kind::KwFn),
            5 => Ok(Kind::KwVar),
            6 => Ok(Kind::KwReturn),
            7 => Ok(Kind::KwLoop),
            8 => Ok(Kind::KwWhile),
            9 => Ok(Kind::KwBreak),
            10 => Ok(Kind::KwIf),
            11 => Ok(Kind::KwElse),
            12 => Ok(Kind::KwTrue),
            13 => Ok(Kind::KwFalse),
            14 => Ok(Kind::KwAs),
            15 => Ok(Kind::KwType),
            16 => Ok(Kind::KwStruct),
            17 => Ok(Kind::KwSizeof),
            18 => Ok(Kind::KwUse),
            19 => Ok(Kind::KwExtern),
            20 => Ok(Kind::KwDistinct),
            21 => Ok(Kind::KwInternal),
            22 => Ok(Kind::Plus),
            23 => Ok(Kind::Minus),
            24 => Ok(Kind::Star),
            25 => Ok(Kind::ForwardSlash),
            26 => Ok(Kind::Equals),
            27 => Ok(Kind::DoubleEquals),
            28 => Ok(Kind::Ampersand),
            29 => Ok(Kind::DoubleAmpersand),
            30 => Ok(Kind::Bar),
            31 => Ok(Kind::Caret),
            32 => Ok(Kind::Tilde),
            33 => Ok(Kind::Bang),
            34 => Ok(Kind::Dot),
            35 => Ok(Kind::DotStar),
            36 => Ok(Kind::LeftShift),
            37 => Ok(Kind::RightShift),
            38 => Ok(Kind::Hash),
            39 => Ok(Kind::LBrace),
            40 => Ok(Kind::RBrace),
            41 => Ok(Kind::LParen),
            42 => Ok(Kind::RParen),
            43 => Ok(Kind::LBracket),
            44 => Ok(Kind::RBracket),
            45 => Ok(Kind::LAngle),
            46 => Ok(Kind::LAngleEquals),
            47 => Ok(Kind::RAngle),
            48 => Ok(Kind::RAngleEquals),
            49 => Ok(Kind::Colon),
            50 => Ok(Kind::Semicolon),
            51 => Ok(Kind::RArrow),
            52 => Ok(Kind::LArrow),
            53 => Ok(Kind::Comma),
            54 => Ok(Kind::InlineAssemblyFragment),
            _ => Err(NoKind(number)),
        }
    }
}
