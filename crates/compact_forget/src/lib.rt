// The offsets of inactive messages set to 0, and what the active ones take summed up.
#![tactic(auto)]

ghost use Rattle.std.specs.Prelude.{◌≡◌, true, cond, ◌+◌, ◌<◌, ◌≤◌, ◌^◌, length};
ghost use Rattle.spec_file.specs.Image.{layout_of};
ghost use Rattle.spec_file.specs.Inspect.{taken};
ghost use Rattle.header_layout.specs.Shapes.{Open};
ghost use Rattle.table_search.specs.Slots.{with_offset};
ghost use Rattle.compact_stages.specs.Stages.{Sound, Forgotten, offset_in, dead_in, active_in};

use header_layout::places::{Offset, Slot};
use header_layout::shape::Shape;
use message_read::{is_active, length_at};
use table_search::{is_vacant, offset_of, set_offset};

// Whether slot i has an inactive message.
fn is_dead(image: &[u8], shape: Shape, i: Slot) -> bool
    requires { Open image.now shape × (i.0 < shape.slots)
        × (taken (layout_of image.now) image.now i.0 ≡ true
        → offset_in image.now i.0 + shape.head ≤ length image.now) }
    ensures { result ≡ dead_in image.now i.0 }
{
    let o = offset_of(image, shape, i);
    if o.at() == 0 {
        return false;
    }
    if is_vacant(image, shape, i) {
        return false;
    }
    !is_active(image, o)
}

// How many bytes the active message of slot i has, 0 where it has none.
fn active_bytes(image: &[u8], shape: Shape, i: Slot) -> usize
    requires { Open image.now shape × (i.0 < shape.slots)
        × (taken (layout_of image.now) image.now i.0 ≡ true
        → offset_in image.now i.0 + shape.head ≤ length image.now)
        × (active_in image.now i.0 < 2 ^ 32) }
    ensures { result ≡ active_in image.now i.0 }
{
    if is_vacant(image, shape, i) {
        return 0;
    }
    let at = offset_of(image, shape, i);
    if !is_active(image, at) {
        return 0;
    }
    shape.head + length_at(image, shape, at)
}

// Sets the offset of slot i to 0 if its message is inactive.
fn forget(image: &mut [u8], shape: Shape, i: Slot)
    requires { Open image.old shape × (i.0 < shape.slots)
        × (taken (layout_of image.old) image.old i.0 ≡ true
        → offset_in image.old i.0 + shape.head ≤ length image.old) }
    ensures { image.new
        ≡ cond (dead_in image.old i.0) (with_offset image.old i.0 0) image.old }
{
    if !is_dead(image, shape, i) {
        return;
    }
    set_offset(image, shape, i, Offset::new(0));
}

// Sets the offset of each inactive message to 0: a message that is moved may overwrite the header of one. Answers how
// many bytes the active ones have.
pub fn forget_dead(image: &mut [u8], shape: Shape) -> usize
    requires { Sound image.old shape }
    ensures { Forgotten image.old image.new result }
{
    let slots = shape.slots;
    let mut bytes = 0;
    for i in 0..slots {
        bytes += active_bytes(image, shape, Slot::new(i));
        forget(image, shape, Slot::new(i));
    }
    bytes
}
