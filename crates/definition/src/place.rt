// A place in a script.

// A line and a column, both from 1.
#[derive(Clone, Copy, PartialEq, Eq, PartialOrd, Ord)]
pub struct Place {
    pub line: u32,
    pub column: u32,
}

impl Place {
    // `SourceLocation::stub()`: the place of what stands nowhere in the script. The file has it as 0 and 0.
    pub const NOWHERE: Place = Place { line: 0, column: 0 };
}
