// A point that is present: its message is replaced or made longer, in place where the bytes fit, else in new space.
#![tactic(auto)]

ghost use Rattle.std.specs.Prelude.{◌≡◌, true, ◌++◌, ◌+◌, ◌≤◌, ◌<◌, length};
ghost use Rattle.spec_file.specs.Limits.{free_field};
ghost use Rattle.spec_file.specs.Bytes.{part};
ghost use Rattle.spec_file.specs.Calls.{settled};
ghost use Rattle.spec_file.specs.Image.{field, layout_of};
ghost use Rattle.spec_file.specs.Messages.{relocated, renewed_text, renewed_at, added_at};
ghost use Rattle.spec_file.specs.Questions.{first_no, point_asks, mode_known, message_sound, place_number};
ghost use Rattle.spec_file.specs.Search.{met};
ghost use Rattle.header_layout.specs.Shapes.{Open};
ghost use Rattle.message_write.specs.Fits.{Fits};
ghost use Rattle.table_search.specs.Slots.{key_in};

use bytes_words::answers::{DAMAGED, NEW, PRESENT, REPLACE, WITHDRAW};
use bytes_words::fields::read_u32;
use bytes_words::limits::FREE_FIELD;
use header_layout::places::{Offset, Slot};
use header_layout::shape::Shape;
use message_read::{holds, message_sound, shown_length, text_start};
use message_room::room_number;
use message_write::{overwrite, retire, take_space};
use table_search::{offset_of, set_offset};

// The old message, if there is one, becomes inactive; the first `before` bytes of its text, and the bytes, are placed
// in new space, where the point's offset then points.
fn relocate(image: &mut [u8], shape: Shape, slot: Slot, o: Offset, before: usize, bytes: &[u8])
    requires { Open image.old shape × (slot.0 < shape.slots)
        × (message_sound (layout_of image.old) image.old o.0 ≡ true)
        × (o.0 + shape.head + before ≤ field image.old free_field)
        × Fits image.old shape (before + length bytes.now) }
    ensures { image.new
        ≡ relocated (layout_of image.old) image.old slot.0 o.0
        (key_in image.old slot.0)
        (part image.old (o.0 + shape.head) before ++ bytes.now) }
{
    let free = Offset::new(read_u32(image, FREE_FIELD) as usize);
    retire(image, o);
    take_space(image, shape, text_start(shape, o), before, bytes);
    set_offset(image, shape, slot, free);
}

// Mode 2: as many bytes as the offset holds are written in place; more, or where there is no offset, are placed in new
// space.
fn replace(image: &mut [u8], shape: Shape, slot: Slot, o: Offset, bytes: &[u8]) -> u32
    requires { Open image.old shape × (slot.0 < shape.slots)
        × (message_sound (layout_of image.old) image.old o.0 ≡ true) }
    ensures { (result ≡ place_number (layout_of image.old) image.old
        (renewed_text (layout_of image.old) image.old o.0 bytes.now 2))
        × (image.new
        ≡ settled result image.old
        (renewed_at (layout_of image.old) image.old slot.0 o.0
        (key_in image.old slot.0) bytes.now 2)) }
{
    if holds(image, shape, o, bytes.len()) {
        overwrite(image, shape, o, bytes);
        return 0;
    }
    let number = room_number(image, shape, bytes.len());
    if number != 0 {
        return number;
    }
    relocate(image, shape, slot, o, 0, bytes);
    0
}

// Mode 3: no bytes change nothing; others are placed in new space, behind the text of an active message.
fn append(image: &mut [u8], shape: Shape, slot: Slot, o: Offset, bytes: &[u8]) -> u32
    requires { Open image.old shape × (slot.0 < shape.slots)
        × (message_sound (layout_of image.old) image.old o.0 ≡ true) }
    ensures { (result ≡ place_number (layout_of image.old) image.old
        (renewed_text (layout_of image.old) image.old o.0 bytes.now 3))
        × (image.new
        ≡ settled result image.old
        (renewed_at (layout_of image.old) image.old slot.0 o.0
        (key_in image.old slot.0) bytes.now 3)) }
{
    if bytes.len() == 0 {
        return 0;
    }
    let before = shown_length(image, shape, o);
    let number = room_number(image, shape, before + bytes.len());
    if number != 0 {
        return number;
    }
    relocate(image, shape, slot, o, before, bytes);
    0
}

// Add of the point in the slot: question 9 before its message is looked at, then 11, then 12 and 13.
pub fn add_present(image: &mut [u8], shape: Shape, slot: Slot, bytes: &[u8], mode: u32) -> u32
    requires { Open image.old shape × (slot.0 < shape.slots)
        × (mode_known mode ≡ true) }
    ensures { (result ≡ first_no (point_asks (layout_of image.old) image.old (met slot.0)
        bytes.now mode))
        × (image.new
        ≡ settled result image.old
        (added_at (layout_of image.old) image.old (met slot.0)
        (key_in image.old slot.0) bytes.now mode)) }
{
    if mode == NEW {
        return PRESENT;
    }
    let o = offset_of(image, shape, slot);
    if !message_sound(image, shape, o) {
        return DAMAGED;
    }
    if mode == REPLACE {
        return replace(image, shape, slot, o, bytes);
    }
    if mode == WITHDRAW {
        retire(image, o);
        return 0;
    }
    append(image, shape, slot, o, bytes)
}
