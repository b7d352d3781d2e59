//! The stores of open elements (stack.rs): their layout, cells of one copied into another, and which nodes have trees. No stored number can trap.
#![tactic(auto)]

pub mod blocks;
pub mod copies;
pub mod machine;

// The layout of specs/Stores.antt. Words of the header:
pub const OPENS: usize = 0;

pub const PARENTS_TOP: usize = 1;

pub const ANCESTORS_TOP: usize = 2;

pub const PAIRS_TOP: usize = 3;

pub const WAITS: usize = 4;

pub const HELD_NAME: usize = 5;

pub const HELD_KIND: usize = 6;

pub const HELD_FOUND: usize = 7;

pub const HELD_STAGE: usize = 8;

pub const HELD_SLOT: usize = 9;

pub const HELD_AT: usize = 10;

pub const HELD_STOP: usize = 11;

pub const MARK: usize = 12;

pub const SHEET: usize = 13;

pub const FLAGS: usize = 14;

// Where the rows begin, and words of a row:
pub const ROWS: usize = 16;

pub const ROW: usize = 8;

pub const CHILDREN: usize = 1;

pub const PARENTS_MARK: usize = 2;

pub const ANCESTORS_MARK: usize = 3;

pub const PAIRS_MARK: usize = 4;

// Where the pairs begin, and words of a pair:
pub const PAIRS: usize = 2072;

pub const PAIR: usize = 2;

pub const TIMES: usize = 1;

// Bytes of a name, and the first slot of a pair's name; id words of an element; where ancestors and found nodes begin:
pub const NAME: usize = 64;

pub const PAIR_NAMES: usize = 257;

pub const ID_WORDS: usize = 2;

pub const ANCESTORS: usize = 4096;

pub const FOUND: usize = 5120;

// Words of an instruction row: the first of the child block and of the descendant block, each before its count.
pub const INSTRUCTION: usize = 8;

pub const CHILD_BLOCK: usize = 3;

pub const DESCENDANT_BLOCK: usize = 5;
