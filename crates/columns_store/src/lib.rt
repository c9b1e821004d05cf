// Storing records by column: the call, on any image bytes. It does what add does in mode 2, with the columns as the
// text, which is written straight into the image.
#![tactic(auto)]

ghost use Rattle.std.specs.Prelude.{◌≡◌, true, length};
ghost use Rattle.spec_file.specs.Calls.{settled};
ghost use Rattle.spec_file.specs.Image.{layout_of};
ghost use Rattle.spec_file.specs.Messages.{added_at};
ghost use Rattle.spec_file.specs.Questions.{first_no, point_asks};
ghost use Rattle.spec_columns.specs.Columns.{whole_records, columns};
ghost use Rattle.spec_records.specs.Records.{Stores};
ghost use Rattle.header_layout.specs.Shapes.{Open};
ghost use Rattle.table_search.specs.Probes.{probe_of, Within, MetKey};

use bytes_words::answers::BAD_RECORDS;
use columns_absent::store_absent;
use columns_present::store_present;
use columns_width::whole_records;
use header_layout::shape::Shape;
use table_search::Found;
use table_seek::{Sought, seek};

// A point for which the search ended so: questions 10 to 13, then the effect on the point.
fn store_found(
    image: &mut [u8],
    shape: Shape,
    found: Found,
    key: &[u8],
    records: &[u8],
    width: usize,
) -> u32
    requires { Open image.old shape × Within shape.slots (probe_of found)
        × MetKey image.old key.now (probe_of found)
        × (length key.now ≡ shape.keylen)
        × (whole_records width (length records.now) ≡ true) }
    ensures { (result ≡ first_no (point_asks (layout_of image.old) image.old (probe_of found)
        (columns width records.now) 2))
        × (image.new
        ≡ settled result image.old
        (added_at (layout_of image.old) image.old (probe_of found) key.now
        (columns width records.now) 2)) }
{
    let Found::Met(slot) = found else {
        return store_absent(image, shape, found, key, records, width);
    };
    store_present(image, shape, slot, records, width)
}

// Stores under the key the width and the columns of the records, in place of the point's message; an absent point is
// entered. Answers 0; or the number of the first question answered no, and then changes no byte.
pub fn store_records(image: &mut [u8], key: &[u8], records: &[u8], width: usize) -> u32
    ensures { Stores image.old key.now records.now width
        image.new result }
{
    let sought = seek(image, key, true);
    match sought {
        Sought::Refused(number) => number,
        Sought::At(shape, found, _) => {
            if !whole_records(width, records.len()) {
                return BAD_RECORDS;
            }
            store_found(image, shape, found, key, records, width)
        }
    }
}
