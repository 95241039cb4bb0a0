// The limits, and the least lengths of the slices.
pub const SCRIPT_BYTES: usize = 16384;

pub const TOKENS: usize = 2048;

pub const TOKEN_ERRORS: usize = 255;

pub const ERRORS: usize = 255;

pub const NESTING: usize = 96;

pub const TOKEN_WORDS: usize = 16384;

pub const ERROR_WORDS: usize = 1024;

pub const TEXT_BYTES: usize = 16384;

pub const FILE_BYTES: usize = 65536;

pub const STEPS: usize = 21845;

pub const STEP_WORDS: usize = 87380;
