// The token and the character that an error names.
ghost use Rattle.std.specs.Prelude.{◌≡◌};
ghost use Rattle.definition.specs.Places.{place_of};
ghost use Rattle.definition.specs.Sentence as S;
ghost use Rattle.fallible.specs.Lists.{err_of};
ghost use Rattle.source.specs.Place as P;
ghost use Rattle.source.specs.Place.{origin};
ghost use Rattle.steps.specs.Tokens.{rest};
ghost use Rattle.sentences.specs.Spelling.{Quotes};
ghost use Rattle.sentences.specs.Messages.{Decodes, StandsAt};

use definition::kind::Kind;
use definition::place::Place;
use fallible::error::Error;
use source::{Cursor, step};
use steps::tokens::{Token, Tokens};

// ---- tokens

// The token at a place; the end if there is none. It goes on by `peek`, as the parser does: tokens have no iterator.
fn token_at<'a>(tokens: Tokens<'a>, place: Place) -> Token<'a>
    ensures { Decodes (S.token_at (place_of place) (rest tokens.entry.records.now tokens.entry.text.now tokens.entry.count 0)) result }
{
    let mut i = 0;
    loop {
        let t = tokens.peek(i);
        if let Kind::End = t.kind {
            return t;
        }
        if place == t.place {
            return t;
        }
        i = t.next;
    }
}

// The token that an error got, of the kind that the error has; the end if it got none.
pub fn token_got<'a>(tokens: Tokens<'a>, e: Error) -> Token<'a>
    ensures { Decodes (S.token_got (rest tokens.entry.records.now tokens.entry.text.now tokens.entry.count 0) (err_of e)) result
        × (result.kind ≡ e.got) }
{
    let token = match e.got {
        Kind::End => tokens.peek(tokens.count),
        _ => token_at(tokens, e.place),
    };
    Token {
        kind: e.got,
        ..token
    }
}

// ---- characters. The script is the caller's slice, so `Quotes` is a fact of the slice: a struct for it would be taken
// apart in each function that reads its bytes.

// The cursor at a place; the end if no character stands there. A loop by cursor: characters have no iterator with places.
fn cursor_at(s: &[u8], place: Place) -> Cursor
    requires { Quotes s.now }
    ensures { StandsAt s.now (place_of place) result }
{
    let mut c = Cursor::START;
    while c.at < s.len() {
        if place == Place::from(c) {
            return c;
        }
        c = step(s, c);
    }
    c
}

// The character at a place; empty if there is none.
pub fn character_at(s: &[u8], place: Place) -> &[u8]
    requires { Quotes s.now }
    ensures { result.now ≡ S.character_at (place_of place) (P.rest s.now origin) }
{
    let c = cursor_at(s, place);
    if s.len() <= c.at {
        return &[];
    }
    let d = step(s, c);
    &s[c.at..d.at]
}
