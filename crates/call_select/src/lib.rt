// Select: lists the taken slots whose every key byte lies in its range. One pass over the table.
#![tactic(auto)]

ghost use Rattle.std.specs.Prelude.{◌≡◌, ◌*◌, ◌≤◌, ◌<◌, length};
ghost use Rattle.spec_file.specs.Bytes.{store};
ghost use Rattle.spec_file.specs.Image.{layout_of};
ghost use Rattle.header_layout.specs.Shapes.{Open};
ghost use Rattle.spec_range.specs.Ranges.{selects, selected, slot_numbers, select_number, select};
ghost use Rattle.call_select.specs.Ranged.{Ranged};

use bytes_compare::all_zero;
use bytes_words::answers::{BAD_RANGES, SHORT_SLICE};
use bytes_words::fields::write_u32;
use header_layout::places::Slot;
use header_layout::shape::{Shape, read_shape};
use header_open::open_number;
use range_match::{Asked, asked_positions, key_in_ranges, ranges_allowed};
use table_search::key_of;

// Whether slot i is listed. Most keys fail at their first bytes, so that few are tested for zeros.
fn is_selected(
    image: &[u8],
    shape: Shape,
    i: Slot,
    lowest: &[u8],
    highest: &[u8],
    asked: Asked,
) -> bool
    requires { Open image.now shape × (i.0 < shape.slots)
        × Ranged shape.keylen lowest.now highest.now asked.first asked.end }
    ensures { result ≡ selects (layout_of image.now) image.now
        lowest.now highest.now i.0 }
{
    let key = key_of(image, shape, i);
    if !key_in_ranges(key, lowest, highest, asked) {
        return false;
    }
    !all_zero(key)
}

// Writes the numbers of the slots that are listed, from the list's start on; answers how many. A slot that is not
// listed writes nothing, so that the bytes after the answer stay.
pub fn fill_list(
    image: &[u8],
    shape: Shape,
    lowest: &[u8],
    highest: &[u8],
    asked: Asked,
    list: &mut [u8],
) -> usize
    requires { Open image.now shape
        × Ranged shape.keylen lowest.now highest.now asked.first asked.end
        × (4 * shape.slots ≤ length list.old) }
    ensures found { result ≡ length (selected (layout_of image.now) image.now
        lowest.now highest.now) }
    ensures list { list.new ≡ store list.old 0
        (slot_numbers (selected (layout_of image.now) image.now
        lowest.now highest.now)) }
{
    let mut found = 0;
    for i in 0..shape.slots {
        if is_selected(image, shape, Slot::new(i), lowest, highest, asked) {
            write_u32(list, 4 * found, i as u32);
            found += 1;
        }
    }
    found
}

// Questions 1, 5, 6, 22 and 16, of a list of so many bytes: the number of the first "no", 0 where there is none.
fn select_number(image: &[u8], lowest: &[u8], highest: &[u8], size: usize) -> u32
    ensures { result ≡ select_number image.now lowest.now highest.now size }
{
    let opened = open_number(image);
    if opened != 0 {
        return opened;
    }
    let shape = read_shape(image);
    if !ranges_allowed(shape.keylen, lowest, highest) {
        return BAD_RANGES;
    }
    if size < 4 * shape.slots {
        return SHORT_SLICE;
    }
    0
}

// Lists the taken slots whose every key byte lies in its range; `found` is how many they are, 0 when refused.
pub fn select(image: &[u8], lowest: &[u8], highest: &[u8], list: &mut [u8], found: &mut u32) -> u32
    ensures number { result ≡ (select image.now lowest.now highest.now
        list.old).number }
    ensures found { found.new ≡ (select image.now lowest.now
        highest.now list.old).found }
    ensures list { list.new ≡ (select image.now lowest.now
        highest.now list.old).list }
{
    *found = 0;
    let number = select_number(image, lowest, highest, list.len());
    if number != 0 {
        return number;
    }
    let asked = asked_positions(lowest, highest);
    *found = fill_list(image, read_shape(image), lowest, highest, asked, list) as u32;
    0
}
