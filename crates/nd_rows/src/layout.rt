//! Where the words of a node or a point stand in its row.

/// The kinds of rows. Word 0 is the number of links times [`KINDS`](era_core::KINDS), and the kind.
pub const LEAF: u64 = 0;

pub const INNER: u64 = 1;

pub const POINT: u64 = 2;

/// The links of a leaf or an inner node.
pub const FIRST_LINK: u32 = 1;

/// The parts of the corners of the box of a leaf or an inner node.
pub const IDEAL: u32 = 21;

pub const NADIR: u32 = 25;

/// The parts of the value of a point.
pub const VALUE: u32 = 1;

/// How many items the solution of a point has, and its words.
pub const SOL_LEN: u32 = 5;

pub const SOL_WORDS: u32 = 6;

/// How many parts the value of a point has.
pub const PARTS: u32 = 38;
