// Document 01's units.

// "Plane coordinates and offsets are whole grains, 100 grains to 1 mm."
pub const GRAINS: u64 = 100;

// "the offset divided once by 100.0"
pub const DISPLAY_GRAINS: f64 = 100.0;

// "ONE is 2^30."
pub const ONE: u64 = 1 << 30;
