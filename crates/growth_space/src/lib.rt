// The space that the active messages of an image take, header and length of each that passes question 11: one pass over
// the table. The letter of one message is read as "d": so the sum is that of the image after the move of its point,
// before a byte is written.
#![tactic(auto)]

ghost use Rattle.std.specs.Prelude.{◌≡◌, true, [], ◌∷◌, ◌+◌, ◌<◌, ◌≤◌, length};
ghost use Rattle.spec_file.specs.Bytes.{store};
ghost use Rattle.spec_file.specs.Limits.{inactive, free_field};
ghost use Rattle.spec_file.specs.Image.{field, layout_of};
ghost use Rattle.spec_file.specs.Messages.{length_at, retire};
ghost use Rattle.spec_file.specs.Questions.{message_sound};
ghost use Rattle.spec_moves.specs.Moves.{active_at, active_space};
ghost use Rattle.header_layout.specs.Shapes.{Open};
ghost use Rattle.growth_space.specs.Counting.{active_here, Counted};

use bytes_words::fields::read_u32;
use bytes_words::limits::{FREE_FIELD, HEAD};
use header_layout::places::{Offset, Slot};
use header_layout::shape::{Shape, length_mask};
use message_read::length_at;
use table_search::{is_vacant, offset_of};

// The four bytes at p as a number, with a "d" for the one at n.
fn word_with_d(image: &[u8], p: usize, n: usize) -> u32
    requires { (p ≤ n) × (n < p + 4) × (p + 4 ≤ length image.now) }
    ensures { result ≡ field (store image.now n (inactive ∷ [])) p }
{
    let mut four = [image[p], image[p + 1], image[p + 2], image[p + 3]];
    four[n - p] = b'd';
    read_u32(&four, 0)
}

// The length that the header at o names, where the letter at `named`, if it is "a", is read as "d": on a damaged image
// another header may lie over it.
fn length_beside(image: &[u8], shape: Shape, o: Offset, named: Offset) -> usize
    requires { Counted image.now shape named.0 × (o.0 + shape.head ≤ length image.now) }
    ensures { result ≡ length_at (layout_of image.now) (retire image.now named.0) o.0 }
{
    let at = o.at();
    let n = named.at();
    if (n <= at) | (at + shape.head <= n) {
        return length_at(image, shape, o);
    }
    if image[n] != b'a' {
        return length_at(image, shape, o);
    }
    (word_with_d(image, at + (shape.head - HEAD), n) & length_mask(shape.head)) as usize
}

// Header and length of the message at o, if it is active and passes question 11; else 0. Its range is tested first: of
// most slots that are empty nothing more is read.
fn active_here(image: &[u8], shape: Shape, o: Offset, named: Offset, free: usize) -> usize
    requires { Counted image.now shape named.0 × (free ≡ field image.now free_field) }
    ensures { result ≡ active_here (layout_of image.now) (retire image.now named.0) o.0 }
{
    let at = o.at();
    let area = shape.area;
    if at < area.at() {
        return 0;
    }
    if free - shape.head < at {
        return 0;
    }
    if image[at] != b'a' {
        return 0;
    }
    if at == named.at() {
        return 0;
    }
    let bytes = shape.head + length_beside(image, shape, o, named);
    if free - at < bytes {
        return 0;
    }
    bytes
}

// The same of slot i's message, if the slot is taken. The key is tested last: an empty slot may have an offset.
fn active_at(image: &[u8], shape: Shape, i: Slot, named: Offset, free: usize) -> usize
    requires { Counted image.now shape named.0 × (free ≡ field image.now free_field) × (i.0 < shape.slots) }
    ensures { result ≡ active_at (layout_of image.now) (retire image.now named.0) i.0 }
{
    let bytes = active_here(image, shape, offset_of(image, shape, i), named, free);
    if bytes == 0 {
        return 0;
    }
    if is_vacant(image, shape, i) {
        return 0;
    }
    bytes
}

// The space of all of them, as it is once the message at `named` is inactive; 0 is none.
pub fn active_space(image: &[u8], shape: Shape, named: Offset) -> usize
    requires { Open image.now shape × (message_sound (layout_of image.now) image.now named.0 ≡ true) }
    ensures { result ≡ active_space (retire image.now named.0) }
{
    let free = read_u32(image, FREE_FIELD) as usize;
    let mut bytes = 0;
    for i in 0..shape.slots {
        bytes += active_at(image, shape, Slot::new(i), named, free);
    }
    bytes
}
