// Records stored by column under a name that is absent: its entry goes to the empty slot where the search ended, the
// columns to new space.
#![tactic(auto)]

ghost use Rattle.std.specs.Prelude.{◌≡◌, true, false, ◌+◌, ◌<◌, length};
ghost use Rattle.std.proofs.Math.Option.{some};
ghost use Rattle.spec_file.specs.Calls.{settled};
ghost use Rattle.spec_file.specs.Image.{layout_of};
ghost use Rattle.spec_file.specs.Messages.{inserted, added_at};
ghost use Rattle.spec_file.specs.Questions.{first_no, point_asks};
ghost use Rattle.spec_file.specs.Search.{is_met};
ghost use Rattle.spec_columns.specs.Columns.{whole_records, columns};
ghost use Rattle.header_layout.specs.Shapes.{Open};
ghost use Rattle.message_write.specs.Fits.{Fits};
ghost use Rattle.table_search.specs.Probes.{probe_of, Within};

use bytes_words::answers::TABLE_FULL;
use bytes_words::fields::read_u32;
use bytes_words::limits::{FREE_FIELD, POINTS_FIELD};
use call_add_absent::enter;
use columns_message::place_records;
use header_layout::places::{Offset, Slot};
use header_layout::shape::Shape;
use message_room::room_number;
use table_search::Found;

// The columns are placed in new space, and the entry with their offset enters the table.
fn insert_records(
    image: &mut [u8],
    shape: Shape,
    slot: Slot,
    key: &[u8],
    records: &[u8],
    width: usize,
)
    requires { Open image.old shape × (slot.0 < shape.slots)
        × (length key.now ≡ shape.keylen) × Fits image.old shape (1 + length records.now)
        × (whole_records width (length records.now) ≡ true) }
    ensures { image.new
        ≡ inserted (layout_of image.old) image.old slot.0 key.now
        (some (columns width records.now)) }
{
    let free = Offset::new(read_u32(image, FREE_FIELD) as usize);
    place_records(image, shape, records, width);
    enter(image, shape, slot, key, free);
}

// A point for which the search ended so, without meeting it: question 10, then 12 and 13, and the point enters.
pub fn store_absent(
    image: &mut [u8],
    shape: Shape,
    found: Found,
    key: &[u8],
    records: &[u8],
    width: usize,
) -> u32
    requires { Open image.old shape × Within shape.slots (probe_of found)
        × (length key.now ≡ shape.keylen) × (is_met (probe_of found) ≡ false)
        × (whole_records width (length records.now) ≡ true) }
    ensures { (result ≡ first_no (point_asks (layout_of image.old) image.old (probe_of found)
        (columns width records.now) 2))
        × (image.new
        ≡ settled result image.old
        (added_at (layout_of image.old) image.old (probe_of found) key.now
        (columns width records.now) 2)) }
{
    let Found::Empty(slot) = found else {
        return TABLE_FULL;
    };
    let slots = shape.slots;
    if slots <= read_u32(image, POINTS_FIELD) as usize {
        return TABLE_FULL;
    }
    let number = room_number(image, shape, 1 + records.len());
    if number != 0 {
        return number;
    }
    insert_records(image, shape, slot, key, records, width);
    0
}
