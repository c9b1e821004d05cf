// Entries of the table: whether each taken slot's key, searched, ends there, and its message passes question 11. One
// search for each taken slot, up to the first that fails.
#![tactic(auto)]

ghost use Rattle.std.specs.Prelude.{◌≡◌, ◌<◌};
ghost use Rattle.spec_file.specs.Image.{layout_of};
ghost use Rattle.spec_file.specs.Search.{search};
ghost use Rattle.spec_file.specs.Inspect.{ends_at, entry_sound};
ghost use Rattle.header_layout.specs.Shapes.{Open};
ghost use Rattle.table_search.specs.Slots.{key_in};
ghost use Rattle.check_entries.specs.Entries.{EntriesPassed};

use bytes_compare::{all_zero, same_bytes};
use call_walk::is_taken;
use header_layout::places::Slot;
use header_layout::shape::Shape;
use message_read::message_sound;
use table_search::{home, key_of, offset_of, pass_over};

// Whether the search for the key of slot i ends there: the slots from the key's home up to it hold other keys.
fn ends_here(image: &[u8], shape: Shape, i: Slot) -> bool
    requires { Open image.now shape × (i.0 < shape.slots) }
    ensures { result ≡ ends_at (search (layout_of image.now) image.now
        (key_in image.now i.0)) i.0 }
{
    let slots = shape.slots;
    let key = key_of(image, shape, i);
    let mut at = home(image, shape, key);
    let mut left = slots;
    // As `search` goes, by `pass_over`, which says how many slots are left: no index is counted.
    while 0 < left {
        let turn = pass_over(image, shape, key, at, left);
        if turn.left == 0 {
            return false;
        }
        let slot = turn.slot;
        if slot.number() == i.number() {
            return true;
        }
        let stored = key_of(image, shape, slot);
        if same_bytes(stored, key) | all_zero(stored) {
            return false;
        }
        at = slot.next(slots);
        left = turn.left - 1;
    }
    false
}

// Whether the key of slot i, searched, ends there, and its message passes question 11.
fn entry_sound(image: &[u8], shape: Shape, i: Slot) -> bool
    requires { Open image.now shape × (i.0 < shape.slots) }
    ensures { result ≡ entry_sound (layout_of image.now) image.now i.0 }
{
    if !ends_here(image, shape, i) {
        return false;
    }
    message_sound(image, shape, offset_of(image, shape, i))
}

// The lowest taken slot whose entry fails so, or the number of slots; and how many slots below it are taken.
#[derive(Clone, Copy)]
pub struct Entries {
    pub bound: usize,
    pub count: usize,
}

// One search for each taken slot; the first that fails ends it.
pub fn pass_entries(image: &[u8], shape: Shape) -> Entries
    requires { Open image.now shape }
    ensures { EntriesPassed (layout_of image.now) image.now shape.slots
        result.bound result.count }
{
    let slots = shape.slots;
    let mut count = 0;
    for i in 0..slots {
        let at = Slot::new(i);
        if is_taken(image, shape, at) {
            if !entry_sound(image, shape, at) {
                return Entries { bound: i, count };
            }
            count += 1;
        }
    }
    Entries {
        bound: slots,
        count,
    }
}
