// Records stored by column under a name that is present: in place of its message where they fit, else in new space.
#![tactic(auto)]

ghost use Rattle.std.specs.Prelude.{◌≡◌, true, ◌+◌, ◌<◌, length};
ghost use Rattle.spec_file.specs.Calls.{settled};
ghost use Rattle.spec_file.specs.Image.{layout_of};
ghost use Rattle.spec_file.specs.Messages.{relocated, renewed_text, renewed_at, added_at};
ghost use Rattle.spec_file.specs.Questions.{first_no, point_asks, message_sound, place_number};
ghost use Rattle.spec_file.specs.Search.{met};
ghost use Rattle.spec_columns.specs.Columns.{whole_records, columns};
ghost use Rattle.header_layout.specs.Shapes.{Open};
ghost use Rattle.message_write.specs.Fits.{Fits};
ghost use Rattle.table_search.specs.Slots.{key_in};

use bytes_words::answers::DAMAGED;
use bytes_words::fields::read_u32;
use bytes_words::limits::FREE_FIELD;
use columns_message::{overwrite_records, place_records};
use header_layout::places::{Offset, Slot};
use header_layout::shape::Shape;
use message_read::{holds, message_sound};
use message_room::room_number;
use message_write::retire;
use table_search::{offset_of, set_offset};

// The old message, if there is one, becomes inactive; the columns are placed in new space, where the point's offset
// then points.
fn relocate_records(
    image: &mut [u8],
    shape: Shape,
    slot: Slot,
    o: Offset,
    records: &[u8],
    width: usize,
)
    requires { Open image.old shape × (slot.0 < shape.slots)
        × (message_sound (layout_of image.old) image.old o.0 ≡ true)
        × Fits image.old shape (1 + length records.now)
        × (whole_records width (length records.now) ≡ true) }
    ensures { image.new
        ≡ relocated (layout_of image.old) image.old slot.0 o.0
        (key_in image.old slot.0) (columns width records.now) }
{
    let free = Offset::new(read_u32(image, FREE_FIELD) as usize);
    retire(image, o);
    place_records(image, shape, records, width);
    set_offset(image, shape, slot, free);
}

// As many bytes as the offset holds are written in place; more, or where there is no offset, are placed in new space,
// after questions 12 and 13.
fn replace_records(
    image: &mut [u8],
    shape: Shape,
    slot: Slot,
    o: Offset,
    records: &[u8],
    width: usize,
) -> u32
    requires { Open image.old shape × (slot.0 < shape.slots)
        × (message_sound (layout_of image.old) image.old o.0 ≡ true)
        × (whole_records width (length records.now) ≡ true) }
    ensures { (result ≡ place_number (layout_of image.old) image.old
        (renewed_text (layout_of image.old) image.old o.0
        (columns width records.now) 2))
        × (image.new
        ≡ settled result image.old
        (renewed_at (layout_of image.old) image.old slot.0 o.0
        (key_in image.old slot.0) (columns width records.now) 2)) }
{
    let m = 1 + records.len();
    if holds(image, shape, o, m) {
        overwrite_records(image, shape, o, records, width);
        return 0;
    }
    let number = room_number(image, shape, m);
    if number != 0 {
        return number;
    }
    relocate_records(image, shape, slot, o, records, width);
    0
}

// The point in the slot: question 11, then 12 and 13, and its message is replaced.
pub fn store_present(
    image: &mut [u8],
    shape: Shape,
    slot: Slot,
    records: &[u8],
    width: usize,
) -> u32
    requires { Open image.old shape × (slot.0 < shape.slots)
        × (whole_records width (length records.now) ≡ true) }
    ensures { (result ≡ first_no (point_asks (layout_of image.old) image.old (met slot.0)
        (columns width records.now) 2))
        × (image.new
        ≡ settled result image.old
        (added_at (layout_of image.old) image.old (met slot.0)
        (key_in image.old slot.0) (columns width records.now) 2)) }
{
    let o = offset_of(image, shape, slot);
    if !message_sound(image, shape, o) {
        return DAMAGED;
    }
    replace_records(image, shape, slot, o, records, width)
}
