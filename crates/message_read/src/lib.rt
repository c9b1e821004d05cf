// A message is read: whether it is sound, whether it is active, how long it is, and its text.
#![tactic(auto)]

ghost use Rattle.std.specs.Prelude.{◌≡◌, not, ◌&&◌, eqb, leb, ◌+◌, ◌≤◌, ◌<◌, ◌^◌, length};
ghost use Rattle.spec_file.specs.Image.{layout_of};
ghost use Rattle.spec_file.specs.Messages.{length_at, is_active, held, shown_length};
ghost use Rattle.spec_file.specs.Questions.{message_sound};
ghost use Rattle.header_layout.specs.Shapes.{Open};

use bytes_words::fields::read_u32;
use bytes_words::limits::{FREE_FIELD, HEAD};
use header_layout::places::Offset;
use header_layout::shape::{Shape, length_mask};

// The length that a message's header names: the bytes that end the header.
pub fn length_at(image: &[u8], shape: Shape, o: Offset) -> usize
    requires { Open image.now shape × (o.0 + shape.head ≤ length image.now) }
    ensures { result ≡ length_at (layout_of image.now) image.now o.0 }
{
    (read_u32(image, o.at() + (shape.head - HEAD)) & length_mask(shape.head)) as usize
}

// Question 11 of an offset. The header is read only once its end is known to lie below X.
pub fn message_sound(image: &[u8], shape: Shape, o: Offset) -> bool
    requires { Open image.now shape }
    ensures { result ≡ message_sound (layout_of image.now) image.now o.0 }
{
    let at = o.at();
    if at == 0 {
        return true;
    }
    let area = shape.area;
    if at < area.at() {
        return false;
    }
    let free = read_u32(image, FREE_FIELD) as usize;
    if free - shape.head < at {
        return false;
    }
    let m = length_at(image, shape, o);
    let letter = image[at];
    ((letter == b'a') | (letter == b'd')) & (at + shape.head + m <= free)
}

// Whether the offset is that of an active message. Nothing is read at offset 0.
pub fn is_active(image: &[u8], o: Offset) -> bool
    requires { o.0 < length image.now }
    ensures { result ≡ is_active image.now o.0 }
{
    let at = o.at();
    if at == 0 {
        return false;
    }
    image[at] == b'a'
}

// Whether there is an offset, and the length there is at least m.
pub fn holds(image: &[u8], shape: Shape, o: Offset, m: usize) -> bool
    requires { Open image.now shape × (o.0 + shape.head ≤ length image.now) }
    ensures { result
        ≡ (not (eqb o.0 0) && leb m (held (layout_of image.now) image.now o.0)) }
{
    if o.at() == 0 {
        return false;
    }
    m <= length_at(image, shape, o)
}

// How many bytes of text the offset shows: those of an active message.
pub fn shown_length(image: &[u8], shape: Shape, o: Offset) -> usize
    requires { Open image.now shape × (o.0 + shape.head ≤ length image.now) }
    ensures { result ≡ shown_length (layout_of image.now) image.now o.0 }
{
    if is_active(image, o) {
        return length_at(image, shape, o);
    }
    0
}

// Where a message's text begins.
pub fn text_start(shape: Shape, o: Offset) -> Offset
    requires { (o.0 < 2 ^ 32) × (shape.head < 2 ^ 32) }
    ensures { result.0 ≡ o.0 + shape.head }
{
    Offset::new(o.at() + shape.head)
}
