// Questions 1, 5 and 6 in turn, as every call but create puts them; 7 of a name and 8 of a mode. In constant time but
// for the name's bytes.
#![tactic(auto)]

ghost use Rattle.std.specs.Prelude.{◌≡◌};
ghost use Rattle.spec_file.specs.Questions.{open_number, name_allowed, mode_known};

use bytes_compare::all_zero;
use bytes_words::answers::{BAD_HEADER, BAD_LENGTH, BAD_VERSION, NEW, WITHDRAW};
use header_questions::{header_sound, version_known};
use header_sizes::size_allowed;

// Questions 1, 5 and 6, which every call but create puts first: the number of the first "no", 0 where there is none.
// It has many callers, for which the compiler would else make it a call of its own.
#[inline(always)]
pub fn open_number(image: &[u8]) -> u32
    ensures { result ≡ open_number image.now }
{
    if !size_allowed(image.len()) {
        return BAD_LENGTH;
    }
    if !version_known(image) {
        return BAD_VERSION;
    }
    if !header_sound(image) {
        return BAD_HEADER;
    }
    0
}

// Question 7.
pub fn name_allowed(key: &[u8], size: usize) -> bool
    ensures { result ≡ name_allowed size key.now }
{
    if key.len() != size {
        return false;
    }
    !all_zero(key)
}

// Question 8.
pub fn mode_known(mode: u32) -> bool
    ensures { result ≡ mode_known mode }
{
    (NEW <= mode) & (mode <= WITHDRAW)
}
