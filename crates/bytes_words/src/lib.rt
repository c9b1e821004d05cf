// Leaves on numbers, each with its whole meaning as its contract, by the definitions of the specification:
//     fields    numbers of 4 and 3 bytes, read and written by shifts and masks
//     arith     multiplication modulo 2^32, and the generator's step; the lesser of two numbers
//     limits    the numbers that document 01 fixes
//     answers   the numbers that calls answer, and add's modes
#![tactic(auto)]

pub mod answers;
pub mod arith;
pub mod fields;
pub mod limits;
