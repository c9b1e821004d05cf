// The numbers that calls answer, and add's modes, by the names that host/include/bhtf.h gives them. 0 is accepted.

// Questions 1 to 6.
pub const BAD_LENGTH: u32 = 1;

pub const BAD_KEY_SIZE: u32 = 2;

pub const BAD_SLOTS: u32 = 3;

pub const TABLE_TOO_BIG: u32 = 4;

pub const BAD_VERSION: u32 = 5;

pub const BAD_HEADER: u32 = 6;

// Questions 7 to 14.
pub const BAD_KEY: u32 = 7;

pub const BAD_MODE: u32 = 8;

pub const PRESENT: u32 = 9;

pub const TABLE_FULL: u32 = 10;

pub const DAMAGED: u32 = 11;

pub const TOO_LONG: u32 = 12;

pub const NO_ROOM: u32 = 13;

pub const ABSENT: u32 = 14;

// Those of document 02.
pub const UNSOUND: u32 = 15;

pub const SHORT_SLICE: u32 = 16;

pub const BAD_JOURNAL: u32 = 17;

pub const UNRECOVERABLE: u32 = 18;

pub const BAD_RECORDS: u32 = 19;

pub const TOO_LONG_FOR_1: u32 = 20;

pub const BAD_RANGES: u32 = 22;

pub const NO_EPOCHS: u32 = 23;

// Add's modes.
pub const NEW: u32 = 1;

pub const REPLACE: u32 = 2;

pub const APPEND: u32 = 3;

pub const WITHDRAW: u32 = 4;
