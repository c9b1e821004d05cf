// A point moves from the old image to the new one: it is added there with its active message, or without an offset if
// it has none, and its slot here is deleted.
#![tactic(auto)]

ghost use Rattle.std.specs.Prelude.{◌≡◌, true};
ghost use Rattle.spec_file.specs.Image.{layout_of};
ghost use Rattle.spec_file.specs.Messages.{shown};
ghost use Rattle.spec_file.specs.Questions.{message_sound};
ghost use Rattle.spec_file.specs.Search.{search, is_met};
ghost use Rattle.header_layout.specs.Shapes.{Open};
ghost use Rattle.growth_move.specs.Moving.{Taken, Movable, Moved};

use bytes_words::answers::{APPEND, DAMAGED, NEW, PRESENT};
use bytes_words::fields::read_u32;
use bytes_words::limits::POINTS_FIELD;
use call_add::add;
use call_delete::remove;
use header_layout::places::{Offset, Slot};
use header_layout::shape::Shape;
use message_read::{is_active, length_at, message_sound};
use table_search::{Found, key_of, offset_of, search};

// The text of the active message at an offset of the old image, or none, is added to the new one under the key.
fn take_in(new: &mut [u8], key: &[u8], old: &[u8], shape: Shape, o: Offset) -> u32
    requires { Open old.now shape × (message_sound (layout_of old.now) old.now o.0 ≡ true) }
    ensures { Taken new.old key.now
        (shown (layout_of old.now) old.now o.0) result new.new }
{
    if !is_active(old, o) {
        return add(new, key, &old[..0], APPEND);
    }
    let start = o.at() + shape.head;
    let end = start + length_at(old, shape, o);
    add(new, key, &old[start..end], NEW)
}

// Whether the image has a point of that key.
pub fn has_key(image: &[u8], shape: Shape, key: &[u8]) -> bool
    requires { Open image.now shape }
    ensures { result ≡ is_met (search (layout_of image.now) image.now key.now) }
{
    let probed = search(image, shape, key);
    let found = probed.found;
    let Found::Met(_) = found else {
        return false;
    };
    true
}

// Moves the point of slot i: question 11 of the old image, then 9, 10, 12 and 13 of the new one; then both are written.
// Where a question is answered no, its number is answered and no byte changes.
pub fn move_point(old: &mut [u8], shape: Shape, new: &mut [u8], larger: Shape, i: Slot) -> u32
    requires { Movable old.old new.old shape larger i.0 }
    ensures { Moved old.old new.old i.0 result old.new new.new }
{
    let o = offset_of(old, shape, i);
    if !message_sound(old, shape, o) {
        return DAMAGED;
    }
    let points = read_u32(old, POINTS_FIELD);
    if points == 0 {
        return DAMAGED;
    }
    if has_key(new, larger, key_of(old, shape, i)) {
        return PRESENT;
    }
    let number = take_in(new, key_of(old, shape, i), old, shape, o);
    if number != 0 {
        return number;
    }
    remove(old, shape, i, o, points);
    0
}
