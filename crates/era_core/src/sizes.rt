//! The sizes of the machine.

/// How many words a row has.
pub const WIDTH: u32 = 40;

/// How many links a row has room for: word 0 says how many it has, and they follow.
pub const MOST_LINKS: u32 = WIDTH - 1;

/// Word 0 of a row is its number of links times this, and a kind below this.
pub const KINDS: u64 = 4;

/// How many rows there may be.
pub const MOST_ROWS: u32 = 262_144;

/// How many passes there may be.
pub const MOST_PASSES: u32 = 64;

/// The root word is a version times this, and a row below this.
pub const ROOT_ROWS: u64 = 16_777_216;

/// The last version that the root word has room for.
pub const LAST_VERSION: u64 = u64::MAX / ROOT_ROWS;
