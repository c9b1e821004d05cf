// Delete's walk: the gap that an entry leaves is closed by entries that a search would no longer find (Knuth's
// Algorithm R, run upwards).
#![tactic(auto)]

ghost use Rattle.std.specs.Prelude.{◌≡◌, ◌≤◌, ◌<◌};
ghost use Rattle.spec_file.specs.Limits.{most_slots};
ghost use Rattle.spec_file.specs.Image.{layout_of};
ghost use Rattle.spec_file.specs.Delete.{among, moved, closed};
ghost use Rattle.spec_file.specs.Search.{next, dist};
ghost use Rattle.header_layout.specs.Shapes.{Open};
ghost use Rattle.table_search.specs.Slots.{home_in, cleared_in, Placed};
ghost use Rattle.table_close.specs.Walks.{Beside, Looked};

use bytes_move::copy_apart;
use bytes_zero::clear;
use header_layout::places::Slot;
use header_layout::shape::Shape;
use table_search::{home, is_vacant, key_of};

// Steps upwards, with wrap, from slot a to slot b.
fn dist(slots: usize, a: Slot, b: Slot) -> usize
    requires { (slots ≤ most_slots) × (a.0 < slots) × (b.0 < slots) }
    ensures { result ≡ dist slots a.0 b.0 }
{
    let from = a.number();
    let to = b.number();
    if from <= to {
        return to - from;
    }
    to + slots - from
}

// Whether the home is among the slots from the one after the hole up to slot j.
fn stays(slots: usize, hole: Slot, j: Slot, home: Slot) -> bool
    requires { (slots ≤ most_slots) × (hole.0 < slots) × (j.0 < slots) × (home.0 < slots) }
    ensures { result ≡ among slots (next slots hole.0) j.0 home.0 }
{
    let after = hole.next(slots);
    dist(slots, after, home) <= dist(slots, after, j)
}

// Zeroes slot i, its offset too.
fn clear_slot(image: &mut [u8], shape: Shape, i: Slot)
    requires { Placed image.old shape × (i.0 < shape.slots) }
    ensures { image.new ≡ cleared_in image.old i.0 }
{
    let size = shape.keylen;
    let a = i.start(size).at();
    let e = a + (size + 4);
    clear(&mut image[a..e]);
}

// Moves the entry of slot j into the hole; slot j is zeroed.
fn move_slot(image: &mut [u8], shape: Shape, hole: Slot, j: Slot)
    requires { Open image.old shape × Beside shape hole.0 j.0 }
    ensures { image.new ≡ moved (layout_of image.old) image.old hole.0 j.0 }
{
    let size = shape.keylen;
    let from = j.start(size).at();
    let to = hole.start(size).at();
    copy_apart(image, from, to, size + 4);
    clear_slot(image, shape, j);
}

// The home of the entry in slot i.
fn home_of(image: &[u8], shape: Shape, i: Slot) -> Slot
    requires { Open image.now shape × (i.0 < shape.slots) }
    ensures { result.0 ≡ home_in image.now i.0 }
{
    home(image, shape, key_of(image, shape, i))
}

// Looks at slot j, which is taken: its entry stays, or moves into the hole. Answers the hole from then on.
fn look(image: &mut [u8], shape: Shape, hole: Slot, j: Slot) -> Slot
    requires { Open image.old shape × Beside shape hole.0 j.0 }
    ensures { Looked image.old hole.0 j.0 result.0 image.new }
{
    if stays(shape.slots, hole, j, home_of(image, shape, j)) {
        return hole;
    }
    move_slot(image, shape, hole, j);
    j
}

// Takes the entry of the slot out: the slot is zeroed, and the walk goes on from there to the first empty slot.
pub fn close(image: &mut [u8], shape: Shape, hole: Slot)
    requires { Open image.old shape × (hole.0 < shape.slots) }
    ensures { image.new ≡ closed (layout_of image.old) image.old hole.0 }
{
    let slots = shape.slots;
    clear_slot(image, shape, hole);
    let mut gap = hole;
    let mut j = hole.next(slots);
    // Round the table to the first empty slot, wherever it is: no index is counted.
    while !is_vacant(image, shape, j) {
        gap = look(image, shape, gap, j);
        j = j.next(slots);
    }
}
