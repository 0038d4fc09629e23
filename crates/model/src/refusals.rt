// Document 01, "Refusal numbers": the table, in its order, under the names of specs/Refusals.antt.

// "byte count not 512, 1024, 1536 or 2048"
pub const BYTE_COUNT: u32 = 1;

// "a block's A or B is wrong"
pub const CHECKSUM: u32 = 2;

// "block number, use count, edition, or a byte that must be zero outside used records"
pub const BLOCK_FIELD: u32 = 3;

// "damaged kind, or a nonzero byte 1 to 3 or 28 to 31 of a used record"
pub const DAMAGED_RECORD: u32 = 4;

// "kind 5 to 15"
pub const LATER_KIND: u32 = 5;

// "length, radius, x or y out of range"
pub const FIELD_OUT_OF_RANGE: u32 = 6;

// "direction not a unit (record or heading)"
pub const NOT_UNIT: u32 = 7;

// "gap, kink at a join"
pub const GAP: u32 = 8;

pub const KINK: u32 = 9;

// "a reading's number not finite or not whole"
pub const NOT_WHOLE: u32 = 10;

// "plane point outside the frame, given or resulting"
pub const OUTSIDE_FRAME: u32 = 11;

// "least D above 400,000,000,000,000"
pub const TOO_FAR: u32 = 12;

// "station judged 0 with residual below −100"
pub const BEFORE_START: u32 = 13;

// "station judged T with residual above 100"
pub const AFTER_END: u32 = 14;

// "station, offset or record number out of range"
pub const ASKED_OUT_OF_RANGE: u32 = 15;

// "run full"
pub const RUN_FULL: u32 = 16;

// "writer's record bytes not 32 times 1 to 60"
pub const RECORD_COUNT: u32 = 17;

// "room below the blocks needed, a run's bytes not 24, or a C move's not 8"
pub const WRONG_ROOM: u32 = 18;

// "A C call returns the refusal number plus 256 times its place, or 0"
pub const PLACE_UNIT: u32 = 256;
