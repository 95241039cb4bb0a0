// An error of the parser.
ghost use Rattle.std.specs.Prelude.{◌≡◌};
ghost use Rattle.definition.specs.Numbers.{kind_number, parse_error_number};
ghost use Rattle.fallible.specs.Answer.{nowhere};
ghost use Rattle.fallible.specs.Lists.{err_of, error_at};

use definition::kind::Kind;
use definition::parse_error::ParseError;
use definition::place::Place;

// Which error, its place, the kind expected and the kind got. The kinds are `End` where it has none, as 0 is in the file.
#[derive(Clone, Copy)]
pub struct Error {
    pub error: ParseError,
    pub place: Place,
    pub expected: Kind,
    pub got: Kind,
}

impl Error {
    // What an array of errors holds where it has none yet.
    pub const FILLER: Error = Error {
        error: ParseError::TopLevel,
        place: Place::NOWHERE,
        expected: Kind::End,
        got: Kind::End,
    };

    // An error that has its kinds.
    pub fn new(error: ParseError, place: Place, expected: Kind, got: Kind) -> Error
        ensures { err_of result ≡ error_at (parse_error_number error) place (kind_number expected) (kind_number got) }
    {
        Error {
            error,
            place,
            expected,
            got,
        }
    }

    // An error that has no kinds.
    pub fn at(error: ParseError, place: Place) -> Error
        ensures { err_of result ≡ error_at (parse_error_number error) place 0 0 }
    {
        Error::new(error, place, Kind::End, Kind::End)
    }

    // An error at the end of the input.
    pub fn at_end(error: ParseError) -> Error
        ensures { err_of result ≡ error_at (parse_error_number error) nowhere 0 0 }
    {
        Error::at(error, Place::NOWHERE)
    }
}
