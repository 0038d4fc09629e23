// The limits of documents 01 and 02: what a crest may hold, how far a question may reach, the walk's steps and how many readings a run counts.
// The names are those of the definitions in specs/, where these give a number a name.

// "L from 1 to 500,000"
pub const LONGEST_ELEMENT: u64 = 500000;

// "x and y within ±200,000,000", and "The frame: every given point lies within ±200,000,000 in both coordinates."
pub const FRAME: u64 = 200000000;

// "|R| ≤ 10,000,000"
pub const WIDEST: u64 = 10000000;

// "Direction: c² + s² at most 2^31 from 2^60."
const UNIT_SQUARE: u64 = 1 << 60;

const UNIT_SLACK: u64 = 1 << 31;

pub const LEAST_UNIT: u64 = UNIT_SQUARE - UNIT_SLACK;

pub const MOST_UNIT: u64 = UNIT_SQUARE + UNIT_SLACK;

// "At each join the last position of an element and the first of the next differ by at most 100 grains in each coordinate, and their
// directions by at most 1,000,000 in each component."
pub const WIDEST_GAP: u64 = 100;

pub const WIDEST_KINK: u64 = 1000000;

// "Inverse of station s and offset w, |w| ≤ 20,000,000"
pub const WIDEST_OFFSET: u64 = 20000000;

// Document 02: "a horizontal distance of 0 to 50,000,000 grains"
pub const LONGEST_SIGHT: u64 = 50000000;

// "least D above 400,000,000,000,000"
pub const FARTHEST: u64 = 400000000000000;

// "station judged 0 with residual below −100", "station judged T with residual above 100"
pub const PAST_END: i64 = 100;

pub const PAST_START: i64 = -PAST_END;

// "First every station that is a multiple of 1,000"
pub const FIRST_STEP: u64 = 1000;

// "the next station is s + 1 if a − b < 31, else s + 1 + (a − b − 31) div 150"
pub const ROOT_SLACK: u64 = 31;

pub const STEP_DIVISOR: u64 = 150;

// "answered + refused is already 65,535 or more"
pub const MOST_COUNTED: u32 = 65535;
