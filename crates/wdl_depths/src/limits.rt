//! The limits themselves. OpenWDL 1.1 sets none.

/// The most structs through which the members of a struct may lead, itself among them.
pub const MOST_STRUCTS: u32 = 32;

/// The most blocks and calls that may stand on one path, those of called workflows counted.
pub const MOST_BLOCKS: usize = 24;
