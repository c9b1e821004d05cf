// Create's questions, 1 to 4.
ghost use Rattle.std.specs.Prelude.{◌≡◌};
ghost use Rattle.spec_file.specs.Create.{slots_asked};
ghost use Rattle.spec_file.specs.Questions.{create_number};

use bytes_words::answers::{BAD_KEY_SIZE, BAD_LENGTH, BAD_SLOTS, TABLE_TOO_BIG};
use header_sizes::{data_start, key_allowed, size_allowed, slots_allowed};

// The number of slots that is meant: 0 means 5,507.
pub fn slots_asked(slots: u32) -> u32
    ensures { result ≡ slots_asked slots }
{
    if slots == 0 { 5507 } else { slots }
}

// The number of the first "no", 0 where there is none.
pub fn create_number(len: usize, size: u32, slots: u32) -> u32
    ensures { result ≡ create_number len size slots }
{
    if !size_allowed(len) {
        return BAD_LENGTH;
    }
    if !key_allowed(size) {
        return BAD_KEY_SIZE;
    }
    if !slots_allowed(slots) {
        return BAD_SLOTS;
    }
    if len < data_start(size as usize, slots as usize) {
        return TABLE_TOO_BIG;
    }
    0
}
