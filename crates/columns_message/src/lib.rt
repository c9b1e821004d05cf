// The columns of records as a message, written straight into the image: in place, or in new space at X. What
// crates/message_write does with bytes that are handed to it.
#![tactic(auto)]

ghost use Rattle.std.specs.Prelude.{◌≡◌, true, ◌+◌, ◌-◌, ◌≤◌, ◌<◌, length};
ghost use Rattle.spec_file.specs.Image.{layout_of};
ghost use Rattle.spec_file.specs.Messages.{held, message, take_space, overwrite};
ghost use Rattle.spec_file.specs.Questions.{message_sound};
ghost use Rattle.spec_columns.specs.Columns.{whole_records, columns};
ghost use Rattle.header_layout.specs.Shapes.{Open, Tells};
ghost use Rattle.message_write.specs.Fits.{Fits};

use bytes_words::fields::read_u32;
use bytes_words::limits::FREE_FIELD;
use bytes_zero::zero;
use columns_write::write_columns;
use header_layout::places::Offset;
use header_layout::shape::Shape;
use message_read::length_at;
use message_write::{set_free, write_head};

// Writes an active message: its header, and as its text what is stored of the records.
fn write_records(space: &mut [u8], head: usize, records: &[u8], width: usize)
    requires { Tells head (1 + length records.now)
        × (length space.old ≡ head + (1 + length records.now))
        × (whole_records width (length records.now) ≡ true) }
    ensures { space.new ≡ message (head - 1) (columns width records.now) }
{
    let m = 1 + records.len();
    write_head(space, head, m);
    write_columns(&mut space[head..], records, width);
}

// Writes it over the message at the offset, and zeroes the rest of the old bytes.
pub fn overwrite_records(image: &mut [u8], shape: Shape, o: Offset, records: &[u8], width: usize)
    requires { Open image.old shape
        × (message_sound (layout_of image.old) image.old o.0 ≡ true)
        × (0 < o.0)
        × (1 + length records.now ≤ held (layout_of image.old) image.old o.0)
        × (whole_records width (length records.now) ≡ true) }
    ensures { image.new
        ≡ overwrite (layout_of image.old) image.old o.0
        (columns width records.now) }
{
    let at = o.at();
    let head = shape.head;
    let old = at + head + length_at(image, shape, o);
    let end = at + head + (1 + records.len());
    write_records(&mut image[at..end], head, records, width);
    zero(&mut image[end..old]);
}

// Writes it at X, and X and M after it.
pub fn place_records(image: &mut [u8], shape: Shape, records: &[u8], width: usize)
    requires { Open image.old shape
        × Fits image.old shape (1 + length records.now)
        × (whole_records width (length records.now) ≡ true) }
    ensures { image.new
        ≡ take_space (layout_of image.old) image.old (columns width records.now) }
{
    let head = shape.head;
    let area = shape.area;
    let free = read_u32(image, FREE_FIELD) as usize;
    let end = free + head + (1 + records.len());
    write_records(&mut image[free..end], head, records, width);
    set_free(image, area, Offset::new(end));
}
