// A point that is absent: its entry goes to the empty slot where the search ended, its message to new space.
#![tactic(auto)]

ghost use Rattle.std.specs.Prelude.{◌≡◌, false, ◌<◌, ◌^◌, length};
ghost use Rattle.std.proofs.Math.Option.{some};
ghost use Rattle.spec_file.specs.Calls.{settled};
ghost use Rattle.spec_file.specs.Image.{layout_of};
ghost use Rattle.spec_file.specs.Messages.{enter, inserted, fresh_text, added_at};
ghost use Rattle.spec_file.specs.Questions.{first_no, point_asks, place_number};
ghost use Rattle.spec_file.specs.Search.{is_met};
ghost use Rattle.header_layout.specs.Shapes.{Open};
ghost use Rattle.message_write.specs.Fits.{Fits};
ghost use Rattle.table_search.specs.Probes.{probe_of, Within};

use bytes_words::answers::{ABSENT, APPEND, TABLE_FULL, WITHDRAW};
use bytes_words::fields::{read_u32, write_u32};
use bytes_words::limits::{FREE_FIELD, POINTS_FIELD};
use header_layout::places::{Offset, Slot};
use header_layout::shape::Shape;
use message_room::room_number;
use message_write::take_space;
use table_search::{Found, put_entry};

// The entry is put into the slot, and C grows by 1.
pub fn enter(image: &mut [u8], shape: Shape, slot: Slot, key: &[u8], o: Offset)
    requires { Open image.old shape × (slot.0 < shape.slots)
        × (length key.now ≡ shape.keylen) × (o.0 < 2 ^ 32) }
    ensures { image.new
        ≡ enter (layout_of image.old) image.old slot.0 key.now o.0 }
{
    let points = read_u32(image, POINTS_FIELD);
    put_entry(image, shape, slot, key, o);
    write_u32(image, POINTS_FIELD, points + 1);
}

// The bytes are placed in new space, and the entry with their offset enters the table.
fn insert(image: &mut [u8], shape: Shape, slot: Slot, key: &[u8], bytes: &[u8])
    requires { Open image.old shape × (slot.0 < shape.slots)
        × (length key.now ≡ shape.keylen) × Fits image.old shape (length bytes.now) }
    ensures { image.new
        ≡ inserted (layout_of image.old) image.old slot.0 key.now
        (some bytes.now) }
{
    let free = Offset::new(read_u32(image, FREE_FIELD) as usize);
    take_space(image, shape, Offset::new(0), 0, bytes);
    enter(image, shape, slot, key, free);
}

// Questions 12 and 13 of the bytes; then the point enters, with them as its message. No bytes in mode 3 are no message.
fn insert_fresh(
    image: &mut [u8],
    shape: Shape,
    slot: Slot,
    key: &[u8],
    bytes: &[u8],
    mode: u32,
) -> u32
    requires { Open image.old shape × (slot.0 < shape.slots) × (length key.now ≡ shape.keylen) }
    ensures { (result ≡ place_number (layout_of image.old) image.old
        (fresh_text bytes.now mode))
        × (image.new
        ≡ settled result image.old
        (inserted (layout_of image.old) image.old slot.0 key.now
        (fresh_text bytes.now mode))) }
{
    if (mode == APPEND) & (bytes.len() == 0) {
        enter(image, shape, slot, key, Offset::new(0));
        return 0;
    }
    let number = room_number(image, shape, bytes.len());
    if number != 0 {
        return number;
    }
    insert(image, shape, slot, key, bytes);
    0
}

// Add of a point for which the search ended so, without meeting it: 14 in mode 4; question 10, then 12 and 13.
pub fn add_absent(
    image: &mut [u8],
    shape: Shape,
    found: Found,
    key: &[u8],
    bytes: &[u8],
    mode: u32,
) -> u32
    requires { Open image.old shape × Within shape.slots (probe_of found)
        × (length key.now ≡ shape.keylen) × (is_met (probe_of found) ≡ false) }
    ensures { (result ≡ first_no (point_asks (layout_of image.old) image.old (probe_of found)
        bytes.now mode))
        × (image.new
        ≡ settled result image.old
        (added_at (layout_of image.old) image.old (probe_of found) key.now
        bytes.now mode)) }
{
    if mode == WITHDRAW {
        return ABSENT;
    }
    let Found::Empty(slot) = found else {
        return TABLE_FULL;
    };
    let slots = shape.slots;
    if slots <= read_u32(image, POINTS_FIELD) as usize {
        return TABLE_FULL;
    }
    insert_fresh(image, shape, slot, key, bytes, mode)
}
