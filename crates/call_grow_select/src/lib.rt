// Select on a pair of images, in growth: the old image's slots first, then the new one's. One pass over each table.
#![tactic(auto)]

ghost use Rattle.std.specs.Prelude.{◌≡◌, ◌+◌, ◌*◌, ◌≤◌, length};
ghost use Rattle.spec_file.specs.Bytes.{store};
ghost use Rattle.spec_file.specs.Image.{layout_of};
ghost use Rattle.header_layout.specs.Shapes.{Open};
ghost use Rattle.spec_range.specs.Ranges.{selected, slot_numbers};
ghost use Rattle.call_select.specs.Ranged.{Ranged};
ghost use Rattle.spec_growth.specs.Growth.{grow_select_number, grow_select};

use bytes_words::answers::{BAD_RANGES, SHORT_SLICE};
use call_select::fill_list;
use growth_open::pair_number;
use header_layout::shape::{Shape, read_shape};
use range_match::{Asked, asked_positions, ranges_allowed};

// Questions 1, 5, 6, 21, 22 and 16, of a list of so many bytes: the number of the first "no", 0 where there is none.
fn select_pair_number(old: &[u8], new: &[u8], lowest: &[u8], highest: &[u8], size: usize) -> u32
    ensures { result ≡ grow_select_number (record { old = old.entry.now; new = new.now })
        lowest.now highest.now size }
{
    let number = pair_number(old, new);
    if number != 0 {
        return number;
    }
    let shape = read_shape(old);
    if !ranges_allowed(shape.keylen, lowest, highest) {
        return BAD_RANGES;
    }
    let larger = read_shape(new);
    if size < 4 * (shape.slots + larger.slots) {
        return SHORT_SLICE;
    }
    0
}

// Writes the numbers of the slots that are listed, from `from` on; answers how many.
fn fill_behind(
    image: &[u8],
    shape: Shape,
    lowest: &[u8],
    highest: &[u8],
    asked: Asked,
    list: &mut [u8],
    from: usize,
) -> usize
    requires { Open image.now shape
        × Ranged shape.keylen lowest.now highest.now asked.first asked.end
        × (from + 4 * shape.slots ≤ length list.old) }
    ensures found { result ≡ length (selected (layout_of image.now) image.now
        lowest.now highest.now) }
    ensures list { list.new ≡ store list.old from
        (slot_numbers (selected (layout_of image.now) image.now
        lowest.now highest.now)) }
{
    fill_list(image, shape, lowest, highest, asked, &mut list[from..])
}

// Lists the taken slots whose every key byte lies in its range, those of the old image and then those of the new one;
// `first` and `second` are how many they are, 0 when refused.
pub fn select_pair(
    old: &[u8],
    new: &[u8],
    lowest: &[u8],
    highest: &[u8],
    list: &mut [u8],
    first: &mut u32,
    second: &mut u32,
) -> u32
    ensures number { result ≡ (grow_select (record { old = old.entry.now; new = new.now })
        lowest.now highest.now list.old).number }
    ensures first { first.new
        ≡ (grow_select (record { old = old.entry.now; new = new.now })
        lowest.now highest.now list.old).old_found }
    ensures second { second.new
        ≡ (grow_select (record { old = old.entry.now; new = new.now })
        lowest.now highest.now list.old).new_found }
    ensures list { list.new ≡ (grow_select (record { old = old.entry.now; new = new.now })
        lowest.now highest.now list.old).list }
{
    *first = 0;
    *second = 0;
    let number = select_pair_number(old, new, lowest, highest, list.len());
    if number != 0 {
        return number;
    }
    let asked = asked_positions(lowest, highest);
    let listed = fill_list(old, read_shape(old), lowest, highest, asked, list);
    let further = fill_behind(
        new,
        read_shape(new),
        lowest,
        highest,
        asked,
        list,
        4 * listed,
    );
    *first = listed as u32;
    *second = further as u32;
    0
}
