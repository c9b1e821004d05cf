// The start of growth: whether a sound image may grow into a second one. It writes nothing.
#![tactic(auto)]

ghost use Rattle.std.specs.Prelude.{◌≡◌};
ghost use Rattle.spec_file.specs.Inspect.{check};
ghost use Rattle.spec_file.specs.Questions.{open_number};
ghost use Rattle.spec_compaction.specs.Compact.{is_sound};
ghost use Rattle.spec_moves.specs.Moves.{unused, second_fits, grow_number};

use bytes_words::answers::UNSOUND;
use bytes_words::fields::read_u32;
use bytes_words::limits::{FREE_FIELD, POINTS_FIELD};
use call_check::{Verdict, check};
use growth_open::{SECOND_UNFIT, same_kind};
use growth_space::active_space;
use header_layout::places::Offset;
use header_layout::shape::read_shape;
use header_open::open_number;

// Whether the check finds the image sound.
fn is_sound(image: &[u8]) -> bool
    ensures { result ≡ is_sound (check image.now) }
{
    let found = check(image);
    match found {
        Verdict::Refused(_) => false,
        Verdict::Sound => true,
        Verdict::SlotFails(_) => false,
        Verdict::CountFails => false,
    }
}

// Whether the second image is sound, with C = 0 and X = D.
fn is_unused(new: &[u8]) -> bool
    ensures { result ≡ unused new.now }
{
    if !is_sound(new) {
        return false;
    }
    let area = read_shape(new).area;
    (read_u32(new, POINTS_FIELD) == 0) & (read_u32(new, FREE_FIELD) as usize == area.at())
}

// Question 21: the second image is so, of the same kind and with a larger N, and its data area holds the old image's
// active messages.
fn second_fits(old: &[u8], new: &[u8]) -> bool
    requires { open_number old.now ≡ 0 }
    ensures { result ≡ second_fits old.now new.now }
{
    if !is_unused(new) {
        return false;
    }
    if !same_kind(old, new) {
        return false;
    }
    let shape = read_shape(old);
    let larger = read_shape(new);
    if larger.slots <= shape.slots {
        return false;
    }
    let area = larger.area;
    let room = new.len() - area.at();
    active_space(old, shape, Offset::new(0)) <= room
}

// Questions 1, 5 and 6 of the old image, 15, and 21 of the second one: the number of the first "no", 0 where there is
// none.
pub fn grow(old: &[u8], new: &[u8]) -> u32
    ensures { result ≡ grow_number old.now new.now }
{
    let number = open_number(old);
    if number != 0 {
        return number;
    }
    if !is_sound(old) {
        return UNSOUND;
    }
    if !second_fits(old, new) {
        return SECOND_UNFIT;
    }
    0
}
