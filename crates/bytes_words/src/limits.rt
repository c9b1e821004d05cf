// The numbers that document 01 fixes, each in one place. The specification's are in crates/spec_file/specs/Limits.antt;
// the proofs of the functions that use these compare the two.

// "BHTF"; the letter v with the version bytes 1, 0, 2, which create writes; and the oldest version that is read, 1, 0,
// 0.
pub const MAGIC: u32 = 0x42485446;

pub const VERSION: u32 = 0x76010002;

pub const OLDEST_VERSION: u32 = 0x76010000;

// The version bytes that create writes, one by one.
pub const MAJOR: u8 = 1;

pub const MINOR: u8 = 0;

pub const PATCH: u8 = 2;

// Where the header's numbers stand.
pub const MAGIC_FIELD: usize = 0;

// The letter v and the version's three bytes, as one word.
pub const VERSION_WORD: usize = 4;

// The version's three bytes, after the letter.
pub const VERSION_FIELD: usize = 5;

pub const KEY_FIELD: usize = 12;

pub const SLOTS_FIELD: usize = 16;

pub const POINTS_FIELD: usize = 20;

pub const MULTIPLIER_FIELD: usize = 24;

pub const START_FIELD: usize = 28;

pub const FIRST_FIELD: usize = 32;

pub const LAST_FIELD: usize = 36;

pub const SCRAMBLE_FIELD: usize = 40;

pub const TABLE_FIELD: usize = 44;

pub const DATA_FIELD: usize = 48;

pub const FREE_FIELD: usize = 52;

pub const PAGE_FIELD: usize = 56;

// Where scramble and table begin.
pub const SCRAMBLE_START: usize = 512;

pub const TABLE_START: usize = 2048;

// The same as the header states them.
pub const SCRAMBLE_OFFSET: u32 = 512;

pub const TABLE_OFFSET: u32 = 2048;

// Limits of an image, a key, a table and a message.
pub const PAGE: usize = 4096;

// What rounding up to a page adds first.
pub const PAGE_ROUND: usize = 4095;

pub const MOST_IMAGE: usize = 1073741824;

pub const MOST_KEY: u32 = 32;

pub const MOST_SLOTS: u32 = 1048576;

pub const MOST_CHARACTER: u32 = 255;

// The size of a message's header, which is its letter and its length, and the largest length.
pub const HEAD: usize = 4;

pub const MOST_LENGTH: usize = 16777215;

// A journal: its mark when it is to be carried out; after the pair count its pairs of an offset and a length, where the
// first of each begins, and how long a pair is.
pub const MARKED: u8 = 165;

pub const PAIRS_START: usize = 4;

pub const LENGTHS_START: usize = 8;

pub const PAIR_SIZE: usize = 8;

// The same in version 2.0, and that version's first byte.
pub const WIDE_HEAD: usize = 5;

pub const MOST_WIDE: usize = 1073741823;

pub const WIDE_MAJOR: u8 = 2;

// The version 2, 0, 0 with its letter.
pub const WIDE_VERSION: u32 = 0x76020000;
