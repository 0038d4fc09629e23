// Where things lie in bytes: document 01, "The crest file", the run and the move of "Readings and the run", and a reading of the program.
// The names are those of specs/Records.antt, specs/Run.antt, specs/Calls.antt and specs/Program.antt, where these give a number a name.

// "Blocks of 512 bytes, little-endian, 1 to 4 of them."
pub const BLOCK_SIZE: usize = 512;

pub const TWO_BLOCKS: usize = 2 * BLOCK_SIZE;

pub const THREE_BLOCKS: usize = 3 * BLOCK_SIZE;

pub const FOUR_BLOCKS: usize = 4 * BLOCK_SIZE;

// "Bytes 0 to 479 hold 15 records of 32 bytes."
pub const RECORDS_END: usize = 480;

pub const PER_BLOCK: usize = 15;

pub const RECORD_SIZE: usize = 32;

// "A crest alignment is 1 to 60 elements read from blocks."
pub const MOST_RECORDS: usize = 60;

// "480: block number, u16, from 0. 482: records in use, u16. 484: edition, u32, is 1. 488 to 507: zero."
pub const FIELDS_AT: usize = 480;

pub const USED_AT: usize = 482;

pub const EDITION_AT: usize = 484;

pub const EDITION: u32 = 1;

pub const ZEROS_AT: usize = 488;

pub const ZERO_COUNT: usize = 20;

// "508: A, u16, the sum of bytes 0 to 507 modulo 65,536. 510: B, u16, the sum of (508 − i) times byte i, i from 0 to 507, same modulus."
pub const SUMS_AT: usize = 508;

pub const SUM_B_AT: usize = 510;

pub const SUM_MODULUS: usize = 65536;

// "Record: 0 kind; 1 to 3 zero; 4 length L, u32; 8 x; 12 y; 16 c; 20 s; 24 radius R in mm; 28 zero, u32."
pub const KIND_AT: usize = 0;

pub const FIRST_ZEROS_AT: usize = 1;

pub const RECORD_LENGTH_AT: usize = 4;

pub const X_AT: usize = 8;

pub const Y_AT: usize = 12;

pub const C_AT: usize = 16;

pub const S_AT: usize = 20;

pub const RADIUS_AT: usize = 24;

pub const LAST_ZEROS_AT: usize = 28;

// "For C the run is 24 bytes, little-endian: answered, refused, latest number, first number, first reading, zero, each u16 ..; then the
// latest three, i32."
pub const RUN_SIZE: usize = 24;

pub const ANSWERED_AT: usize = 0;

pub const REFUSED_AT: usize = 2;

pub const LATEST_AT: usize = 4;

pub const FIRST_AT: usize = 6;

pub const FIRST_READING_AT: usize = 8;

pub const ONE_AT: usize = 12;

pub const TWO_AT: usize = 16;

pub const THREE_AT: usize = 20;

// "stake-out writes forward and left, i32, to 8 lent bytes"
pub const MOVE_SIZE: usize = 8;

pub const FORWARD_AT: usize = 0;

// "16-byte plane readings (x, y as little-endian f64; .."
pub const READING_SIZE: usize = 16;

pub const READING_X_AT: usize = 0;

pub const READING_Y_AT: usize = 8;
