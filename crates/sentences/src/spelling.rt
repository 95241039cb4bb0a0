// The Debug spelling of a token: the name of its kind, its text in quotes, its base.
ghost use Rattle.std.specs.Prelude.{◌≡◌, ◌<◌, ◌≤◌};
ghost use Rattle.std.specs.List.{flat_map};
ghost use Rattle.std.specs.Str.{chars};
ghost use Rattle.definition.specs.Numbers.{kind_number};
ghost use Rattle.definition.specs.Sentence as S;
ghost use Rattle.sentences.specs.Spelling.{entry};
ghost use Rattle.sentences.specs.Contract.{Told};

use crate::write::Sentence;
use definition::kind::Kind;
use std::str::from_utf8;
use steps::tokens::Token;

// ---- the name of a kind

// By the number of a kind. A `match` was tried: the check finds none of its 55 arms alone, each wants an answer of its
// own, and the table wants one. Not by `Debug`: derived, it has no contract.
static NAMES: [&str; 55] = [
    "",
    "Identifier",
    "Integer",
    "String",
    "KwFn",
    "KwVar",
    "KwReturn",
    "KwLoop",
    "KwWhile",
    "KwBreak",
    "KwIf",
    "KwElse",
    "KwTrue",
    "KwFalse",
    "KwAs",
    "KwType",
    "KwStruct",
    "KwSizeof",
    "KwUse",
    "KwExtern",
    "KwDistinct",
    "KwInternal",
    "Plus",
    "Minus",
    "Star",
    "ForwardSlash",
    "Equals",
    "DoubleEquals",
    "Ampersand",
    "DoubleAmpersand",
    "Bar",
    "Caret",
    "Tilde",
    "Bang",
    "Dot",
    "DotStar",
    "LeftShift",
    "RightShift",
    "Hash",
    "LBrace",
    "RBrace",
    "LParen",
    "RParen",
    "LBracket",
    "RBracket",
    "LAngle",
    "LAngleEquals",
    "RAngle",
    "RAngleEquals",
    "Colon",
    "Semicolon",
    "RArrow",
    "LArrow",
    "Comma",
    "InlineAssemblyFragment",
];

// The text at an index of a table; empty past its end.
fn text_at(table: &[&'static str], i: usize) -> &'static str
    ensures { result.now ≡ entry table.now i }
{
    table.get(i).copied().unwrap_or("")
}

fn name(kind: Kind) -> &'static str
    ensures { result.now ≡ S.kind_name (kind_number kind) }
{
    text_at(&NAMES, kind as usize)
}

// 0 to 9, a to f.
fn digit_char(d: usize) -> u8
    requires { d < 16 }
    ensures { result ≡ S.digit_char d }
{
    char::from_digit(d as u32, 16).unwrap_or('0') as u8
}

impl<'a> Sentence<'a> {
    // Writes the name of a kind.
    pub fn say_name(&mut self, kind: Kind)
        ensures { Told (S.kind_name (kind_number kind)) self.old self.new }
    {
        self.say_all(name(kind).as_bytes());
    }

    // Writes a number in a base, without leading zeros. Not by `write!`: for that `Sentence` would be
    // an `fmt::Write`, whose `Result` each number would drop.
    fn say_number(&mut self, base: usize, n: usize)
        requires { (2 ≤ base) × (base ≤ 16) }
        ensures { Told (S.in_base base n) self.old self.new }
    {
        if n < base {
            self.say(digit_char(n));
            return;
        }
        self.say_number(base, n / base);
        self.say(digit_char(n % base));
    }

    // Writes a character of a quoted text.
    #[tactic(auto, using(std::proofs::lemmas::Bool::Decides::nat_tests), unfolding(definition::specs::Sentence::escaped, definition::specs::Choice::first, definition::specs::Ascii::ascii))]
    fn say_escaped(&mut self, c: char)
        ensures { Told (S.escaped c) self.old self.new }
    {
        match c {
            '"' => self.say_all(b"\\\""),
            '\\' => self.say_all(b"\\\\"),
            '\n' => self.say_all(b"\\n"),
            '\r' => self.say_all(b"\\r"),
            '\t' => self.say_all(b"\\t"),
            ' '..='~' => self.say(c as u8),
            _ => {
                self.say_all(b"\\u{");
                self.say_number(16, c as usize);
                self.say(b'}');
            }
        }
    }

    fn say_characters(&mut self, text: &str)
        ensures { Told (flat_map S.escaped (chars text.now)) self.old self.new }
    {
        for c in text.chars() {
            self.say_escaped(c);
        }
    }

    // Writes a text in quotes; nothing of what is not UTF-8.
    fn say_quoted(&mut self, text: &[u8])
        ensures { Told (S.in_quotes text.now) self.old self.new }
    {
        let Ok(text) = from_utf8(text) else {
            return;
        };
        self.say(b'"');
        self.say_characters(text);
        self.say(b'"');
    }

    // Writes the base of an Integer after its text.
    fn say_base(&mut self, kind: Kind, base: u32)
        ensures { Told (S.base_part (kind_number kind) base) self.old self.new }
    {
        if let Kind::Integer = kind {
            self.say_all(b", ");
            self.say_number(10, base as usize);
        }
    }

    // Writes the kind, and where it has a text this in parentheses.
    pub fn say_token(&mut self, token: Token)
        ensures { Told (S.spelled (kind_number token.entry.kind) token.entry.text.now token.entry.base) self.old self.new }
    {
        self.say_name(token.kind);
        if !token.kind.has_text() {
            return;
        }
        self.say(b'(');
        self.say_quoted(token.text);
        self.say_base(token.kind, token.base);
        self.say(b')');
    }
}
