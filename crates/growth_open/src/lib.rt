// What every call on a pair of images asks first: questions 1, 5 and 6 of the old image, then 21 of the new one. In
// constant time.
#![tactic(auto)]

ghost use Rattle.std.specs.Prelude.{◌≡◌, []};
ghost use Rattle.spec_file.specs.Questions.{open_number};
ghost use Rattle.spec_moves.specs.Moves.{same_kind};
ghost use Rattle.spec_growth.specs.Growth.{pair_number};

use bytes_words::fields::read_u32;
use bytes_words::limits::{KEY_FIELD, VERSION_FIELD};
use header_open::open_number;

// Question 21's number.
pub const SECOND_UNFIT: u32 = 21;

// Whether two accepted headers have the same major version and the same K.
pub fn same_kind(old: &[u8], new: &[u8]) -> bool
    requires { (open_number old.now ≡ 0) × (open_number new.now ≡ 0) }
    ensures { result ≡ same_kind old.now new.now }
{
    (new[VERSION_FIELD] == old[VERSION_FIELD])
        & (read_u32(new, KEY_FIELD) == read_u32(old, KEY_FIELD))
}

// Questions 1, 5 and 6 of the old image, then 21: the number of the first "no", 0 where there is none.
pub fn pair_number(old: &[u8], new: &[u8]) -> u32
    ensures { result ≡ pair_number (record { old = old.entry.now; new = new.now }) [] }
{
    let number = open_number(old);
    if number != 0 {
        return number;
    }
    if open_number(new) != 0 {
        return SECOND_UNFIT;
    }
    if !same_kind(old, new) {
        return SECOND_UNFIT;
    }
    0
}
