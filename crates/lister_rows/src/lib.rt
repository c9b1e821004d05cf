// A line for each taken slot, and the whole text.
#![tactic(auto)]

ghost use Rattle.std.specs.Prelude.{◌+◌, ◌≤◌, ◌<◌, ◌≡◌, length, take};
ghost use Rattle.spec_file.specs.Image.{layout_of};
ghost use Rattle.header_layout.specs.Shapes.{Open};
ghost use Rattle.lister_text.specs.Puts.{Put};
ghost use Rattle.lister_rows.specs.Listed.{length_text, line, row, lines, refused_text, listed, printed, most_printed};
ghost use Rattle.table_search.specs.Slots.{offset_in};

use call_walk::is_taken;
use header_layout::places::Slot;
use header_layout::shape::{Shape, read_shape};
use header_open::open_number;
use lister_text::{put_byte, put_bytes, put_decimal, put_key};
use message_read::{message_sound, shown_length};
use table_search::{key_of, offset_of};

// A longer input is not listed.
const MOST_LISTED: usize = 65536;

// The length of the slot's own active message: 0 if there is none, `bad` where question 11 fails.
fn put_length(image: &[u8], shape: Shape, i: Slot, out: &mut [u8], at: usize) -> usize
    requires { Open image.now shape × (i.0 < shape.slots)
        × (at + length (length_text (layout_of image.now) image.now (offset_in image.now i.0))
        ≤ length out.old) }
    ensures { Put out.old at out.new result
        (length_text (layout_of image.now) image.now (offset_in image.now i.0)) }
{
    let o = offset_of(image, shape, i);
    if !message_sound(image, shape, o) {
        return put_bytes(out, at, b"bad");
    }
    put_decimal(out, at, shown_length(image, shape, o))
}

// The line of slot i.
fn put_line(image: &[u8], shape: Shape, i: Slot, out: &mut [u8], at: usize) -> usize
    requires { Open image.now shape × (i.0 < shape.slots)
        × (at + length (line (layout_of image.now) image.now i.0) ≤ length out.old) }
    ensures { Put out.old at out.new result
        (line (layout_of image.now) image.now i.0) }
{
    let a = put_decimal(out, at, i.number());
    let b = put_byte(out, a, b' ');
    let c = put_key(out, b, key_of(image, shape, i));
    let d = put_byte(out, c, b' ');
    let e = put_length(image, shape, i, out, d);
    put_byte(out, e, b'\n')
}

// The line of slot i if it is taken.
fn put_row(image: &[u8], shape: Shape, i: Slot, out: &mut [u8], at: usize) -> usize
    requires { Open image.now shape × (i.0 < shape.slots)
        × (at + length (row (layout_of image.now) image.now i.0) ≤ length out.old) }
    ensures { Put out.old at out.new result
        (row (layout_of image.now) image.now i.0) }
{
    if !is_taken(image, shape, i) {
        return at;
    }
    put_line(image, shape, i, out, at)
}

// The lines of all taken slots, in slot order.
fn put_lines(image: &[u8], shape: Shape, out: &mut [u8], at: usize) -> usize
    requires { Open image.now shape
        × (at + length (lines (layout_of image.now) image.now shape.slots 0) ≤ length out.old) }
    ensures { Put out.old at out.new result
        (lines (layout_of image.now) image.now shape.slots 0) }
{
    let mut end = at;
    for i in 0..shape.slots {
        end = put_row(image, shape, Slot::new(i), out, end);
    }
    end
}

// The number that an image is refused with.
fn put_refused(number: u32, out: &mut [u8]) -> usize
    requires { length (refused_text number) ≤ length out.old }
    ensures { Put out.old 0 out.new result (refused_text number) }
{
    let a = put_bytes(out, 0, b"refused ");
    let b = put_decimal(out, a, number as usize);
    put_byte(out, b, b'\n')
}

// The whole text of an image. It stands at the start of `out`; the bytes behind it are left.
pub fn list(image: &[u8], out: &mut [u8]) -> usize
    requires { length (listed image.now) ≤ length out.old }
    ensures { Put out.old 0 out.new result (listed image.now) }
{
    let number = open_number(image);
    if number != 0 {
        return put_refused(number, out);
    }
    let at = put_bytes(out, 0, b"slot key length\n");
    put_lines(image, read_shape(image), out, at)
}

// What the lister prints for its input. The second clause follows from the first; by it a caller takes the text as a
// part.
pub fn print(input: &[u8], out: &mut [u8]) -> usize
    requires { most_printed ≤ length out.old }
    ensures text { Put out.old 0 out.new result (printed input.now) }
    ensures within { (result ≤ length out.new) × (result ≡ length (take result out.new)) }
{
    if MOST_LISTED < input.len() {
        return put_bytes(out, 0, b"too long\n");
    }
    list(input, out)
}
