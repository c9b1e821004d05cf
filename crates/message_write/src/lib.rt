// A message is written: made inactive, in place, or in new space at X.
#![tactic(auto)]

ghost use Rattle.std.specs.Prelude.{◌≡◌, true, ◌∷◌, ◌++◌, ◌+◌, ◌-◌, ◌≤◌, ◌<◌, ◌^◌, length};
ghost use Rattle.spec_file.specs.Limits.{active, free_field, header_size};
ghost use Rattle.spec_file.specs.Bytes.{part, store, digits};
ghost use Rattle.spec_file.specs.Image.{field, last_page, layout_of};
ghost use Rattle.spec_file.specs.Messages.{held, message, set_free, take_space, retire, overwrite};
ghost use Rattle.spec_file.specs.Questions.{message_sound};
ghost use Rattle.header_layout.specs.Shapes.{Open, Tells};
ghost use Rattle.message_write.specs.Fits.{Fits};

use bytes_copy::copy;
use bytes_move::copy_up;
use bytes_words::fields::{read_u32, write_low_u24, write_u32};
use bytes_words::limits::{FREE_FIELD, HEAD, PAGE, PAGE_FIELD};
use bytes_zero::zero;
use header_layout::places::Offset;
use header_layout::shape::Shape;
use message_read::{is_active, length_at};

// Makes an active message inactive.
pub fn retire(image: &mut [u8], o: Offset)
    requires { o.0 < length image.old }
    ensures { image.new ≡ retire image.old o.0 }
{
    if is_active(image, o) {
        let at = o.at();
        image[at] = b'd';
    }
}

// Writes the header of an active message of m bytes.
pub fn write_head(space: &mut [u8], head: usize, m: usize)
    requires { Tells head m × (head ≤ length space.old) }
    ensures { space.new ≡ store space.old 0 (active ∷ digits (head - 1) m) }
{
    if head == HEAD {
        write_low_u24(space, 0, b'a', m as u32);
        return;
    }
    space[0] = b'a';
    write_u32(space, 1, m as u32);
}

// Writes an active message: its header, and the bytes behind the text's first `before` bytes, which stand there.
pub fn write_message(space: &mut [u8], head: usize, before: usize, bytes: &[u8])
    requires { Tells head (before + length bytes.now)
        × (length space.old ≡ head + before + length bytes.now) }
    ensures { space.new
        ≡ message (head - 1) (part space.old head before ++ bytes.now) }
{
    let m = before + bytes.len();
    write_head(space, head, m);
    let from = head + before;
    copy(&mut space[from..], bytes);
}

// Writes a message over the one at the offset, and zeroes the rest of the old bytes.
pub fn overwrite(image: &mut [u8], shape: Shape, o: Offset, bytes: &[u8])
    requires { Open image.old shape
        × (message_sound (layout_of image.old) image.old o.0 ≡ true)
        × (0 < o.0)
        × (length bytes.now ≤ held (layout_of image.old) image.old o.0) }
    ensures { image.new
        ≡ overwrite (layout_of image.old) image.old o.0 bytes.now }
{
    let at = o.at();
    let head = shape.head;
    let old = at + head + length_at(image, shape, o);
    let end = at + head + bytes.len();
    write_message(&mut image[at..end], head, 0, bytes);
    zero(&mut image[end..old]);
}

// The last page, M, of an image with data offset `area` and next free offset `free`.
pub fn last_page(area: Offset, free: Offset) -> u32
    requires { (area.0 ≤ free.0) × (free.0 < 2 ^ 32) }
    ensures { result ≡ last_page area.0 free.0 }
{
    let d = area.at();
    let x = free.at();
    if x == d {
        return 0xffff_ffff;
    }
    ((x - d - 1) / PAGE) as u32
}

// Writes the next free offset, X, and the last page, M.
pub fn set_free(image: &mut [u8], area: Offset, free: Offset)
    requires { (header_size ≤ length image.old) × (area.0 ≤ free.0) × (free.0 < 2 ^ 32) }
    ensures { image.new ≡ set_free area.0 image.old free.0 }
{
    write_u32(image, FREE_FIELD, free.at() as u32);
    write_u32(image, PAGE_FIELD, last_page(area, free));
}

// Places a message at X: its text is the `before` bytes from `from` on, copied, and then the bytes.
pub fn take_space(image: &mut [u8], shape: Shape, from: Offset, before: usize, bytes: &[u8])
    requires { Open image.old shape
        × (from.0 + before ≤ field image.old free_field)
        × Fits image.old shape (before + length bytes.now) }
    ensures { image.new
        ≡ take_space (layout_of image.old) image.old
        (part image.old from.0 before ++ bytes.now) }
{
    let head = shape.head;
    let area = shape.area;
    let free = read_u32(image, FREE_FIELD) as usize;
    copy_up(image, from.at(), free + head, before);
    let end = free + head + (before + bytes.len());
    write_message(&mut image[free..end], head, before, bytes);
    set_free(image, area, Offset::new(end));
}
