// The check: whether each taken slot's key, searched, ends there, its message passes question 11, its stretch meets
// that of no lower-numbered slot, and C is the number of taken slots. Entries up to the first that fails; stretches are
// compared below that one only.
#![tactic(auto)]

ghost use Rattle.std.specs.Prelude.{◌≡◌};
ghost use Rattle.spec_file.specs.Inspect.{table_verdict, check};
ghost use Rattle.header_layout.specs.Shapes.{Open};
ghost use Rattle.call_check.specs.Verdicts.{verdict_in};

use bytes_words::fields::read_u32;
use bytes_words::limits::POINTS_FIELD;
use check_entries::pass_entries;
use check_overlap::first_meeting;
use header_layout::places::Slot;
use header_layout::shape::{Shape, read_shape};
use header_open::open_number;

// What the check says: refused with a number, sound, the lowest slot that fails, or that C alone fails.
#[derive(Clone, Copy)]
pub enum Verdict {
    Refused(u32),
    Sound,
    SlotFails(Slot),
    CountFails,
}

// The check of an accepted header's table: entries up to the first that fails, stretches that meet below it, then C.
fn check_table(image: &[u8], shape: Shape) -> Verdict
    requires { Open image.now shape }
    ensures { verdict_in result ≡ table_verdict image.now }
{
    let entries = pass_entries(image, shape);
    let first = first_meeting(image, shape, entries.bound);
    if first < shape.slots {
        return Verdict::SlotFails(Slot::new(first));
    }
    if (read_u32(image, POINTS_FIELD) as usize) != entries.count {
        return Verdict::CountFails;
    }
    Verdict::Sound
}

// The check of an image.
pub fn check(image: &[u8]) -> Verdict
    ensures { verdict_in result ≡ check image.now }
{
    let number = open_number(image);
    if number != 0 {
        return Verdict::Refused(number);
    }
    check_table(image, read_shape(image))
}
