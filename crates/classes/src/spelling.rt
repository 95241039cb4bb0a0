// Fixed spellings: symbols, keywords and escapes. In the definition 0 says that there is none.
ghost use Rattle.std.specs.Prelude.{◌≡◌, option_map, unwrap_or};
ghost use Rattle.definition.specs.Tokenizer as Z;
ghost use Rattle.definition.specs.Numbers.{kind_number};
ghost use Rattle.classes.specs.Found.{nonzero};

use definition::kind::Kind;

// The kind of a symbol of two characters: `c`, and `d` if any follows.
#[tactic(auto, unfolding(definition::specs::Tokenizer::pair, definition::specs::Choice::first))]
pub fn pair(c: u8, d: Option<u8>) -> Option<Kind>
    ensures { option_map kind_number result ≡ nonzero (Z.pair c (unwrap_or d 0)) }
{
    match (c, d) {
        (b'<', Some(b'<')) => Some(Kind::LeftShift),
        (b'<', Some(b'-')) => Some(Kind::LArrow),
        (b'<', Some(b'=')) => Some(Kind::LAngleEquals),
        (b'>', Some(b'>')) => Some(Kind::RightShift),
        (b'>', Some(b'=')) => Some(Kind::RAngleEquals),
        (b'&', Some(b'&')) => Some(Kind::DoubleAmpersand),
        (b'.', Some(b'*')) => Some(Kind::DotStar),
        (b'=', Some(b'=')) => Some(Kind::DoubleEquals),
        _ => None,
    }
}

// The kind of a symbol of one character.
#[tactic(auto, unfolding(definition::specs::Tokenizer::symbol, definition::specs::Choice::first))]
pub fn symbol(c: u8) -> Option<Kind>
    ensures { option_map kind_number result ≡ nonzero (Z.symbol c) }
{
    match c {
        b'{' => Some(Kind::LBrace),
        b'}' => Some(Kind::RBrace),
        b'(' => Some(Kind::LParen),
        b')' => Some(Kind::RParen),
        b'[' => Some(Kind::LBracket),
        b']' => Some(Kind::RBracket),
        b'<' => Some(Kind::LAngle),
        b'>' => Some(Kind::RAngle),
        b':' => Some(Kind::Colon),
        b';' => Some(Kind::Semicolon),
        b'+' => Some(Kind::Plus),
        b'*' => Some(Kind::Star),
        b',' => Some(Kind::Comma),
        b'&' => Some(Kind::Ampersand),
        b'|' => Some(Kind::Bar),
        b'^' => Some(Kind::Caret),
        b'~' => Some(Kind::Tilde),
        b'!' => Some(Kind::Bang),
        b'.' => Some(Kind::Dot),
        b'=' => Some(Kind::Equals),
        b'#' => Some(Kind::Hash),
        b'/' => Some(Kind::ForwardSlash),
        _ => None,
    }
}

// The character that an escape in a string denotes.
pub fn escape(c: u8) -> Option<u8>
    ensures { result ≡ nonzero (Z.escape c) }
{
    match c {
        b'r' => Some(b'\r'),
        b'n' => Some(b'\n'),
        b't' => Some(b'\t'),
        _ => None,
    }
}

static KEYWORDS: [(&[u8], Kind); 18] = [
    (b"fn", Kind::KwFn),
    (b"var", Kind::KwVar),
    (b"return", Kind::KwReturn),
    (b"loop", Kind::KwLoop),
    (b"while", Kind::KwWhile),
    (b"break", Kind::KwBreak),
    (b"if", Kind::KwIf),
    (b"else", Kind::KwElse),
    (b"true", Kind::KwTrue),
    (b"false", Kind::KwFalse),
    (b"as", Kind::KwAs),
    (b"type", Kind::KwType),
    (b"struct", Kind::KwStruct),
    (b"sizeof", Kind::KwSizeof),
    (b"use", Kind::KwUse),
    (b"extern", Kind::KwExtern),
    (b"distinct", Kind::KwDistinct),
    (b"internal", Kind::KwInternal),
];

// The kind of a keyword.
pub fn keyword(w: &[u8]) -> Option<Kind>
    ensures { option_map kind_number result ≡ nonzero (Z.keyword w.now) }
{
    for (spelled, kind) in &KEYWORDS {
        if w == *spelled {
            return Some(*kind);
        }
    }
    None
}
