// From a name to its slot: home, and the search from there upwards.
#![tactic(auto)]

ghost use Rattle.std.specs.Prelude.{◌≡◌, ◌+◌, ◌-◌, ◌^◌, ◌≤◌, ◌<◌, length};
ghost use Rattle.spec_file.specs.Image.{layout_of, home, slot_bytes, put_slot};
ghost use Rattle.spec_file.specs.Search.{search, slots_read};
ghost use Rattle.header_layout.specs.Shapes.{Open};
ghost use Rattle.table_search.specs.Probes.{probe_of, GoesOn};
ghost use Rattle.table_search.specs.Slots.{key_in, offset_in, Placed, vacant_in, with_offset};

use bytes_compare::{all_zero, same_bytes, tail};
use bytes_copy::copy;
use bytes_words::arith::lesser;
use bytes_words::fields::{read_u32, write_u32};
use bytes_words::limits::SCRAMBLE_START;
use header_layout::places::{Offset, Slot};
use header_layout::shape::Shape;
use table_hash::hash;

// How a search ended: the key was met, an empty slot was met, or all slots were read.
#[derive(Clone, Copy)]
pub enum Found {
    Met(Slot),
    Empty(Slot),
    Exhausted,
}

// What a search answers: how it ended, and how many slots it read.
#[derive(Clone, Copy)]
pub struct Probed {
    pub found: Found,
    pub read: usize,
}

// The key's home slot: its hash modulo the number of slots.
pub fn home(image: &[u8], shape: Shape, key: &[u8]) -> Slot
    requires { Open image.now shape }
    ensures { result.0 ≡ home (layout_of image.now) key.now }
{
    let first = shape.first;
    let last = shape.last;
    let slots = shape.slots;
    let end = SCRAMBLE_START + 4 * ((last - first + 1) as usize);
    let h = hash(
        &image[SCRAMBLE_START..end],
        shape.multiplier,
        shape.basis,
        first,
        last,
        key,
    );
    Slot::new((h as usize) % slots)
}

// The key bytes of slot i, as a part of the image.
pub fn key_of(image: &[u8], shape: Shape, i: Slot) -> &[u8]
    requires { Open image.now shape × (i.0 < shape.slots) }
    ensures { result.now ≡ key_in image.now i.0 }
{
    let size = shape.keylen;
    let a = i.start(size).at();
    let e = a + size;
    &image[a..e]
}

// The message offset in slot i.
pub fn offset_of(image: &[u8], shape: Shape, i: Slot) -> Offset
    requires { Open image.now shape × (i.0 < shape.slots) }
    ensures { result.0 ≡ offset_in image.now i.0 }
{
    let size = shape.keylen;
    let a = i.start(size).at();
    Offset::new(read_u32(image, a + size) as usize)
}

// Whether slot i is empty.
pub fn is_vacant(image: &[u8], shape: Shape, i: Slot) -> bool
    requires { Open image.now shape × (i.0 < shape.slots) }
    ensures { result ≡ vacant_in image.now i.0 }
{
    all_zero(key_of(image, shape, i))
}

// Where a search stands: the slot to read next, and how many are left.
#[derive(Clone, Copy)]
pub struct Turn {
    pub slot: Slot,
    pub left: usize,
}

// Where a search stands at slot i that had `most` slots left at slot `first`.
fn turn_at(i: usize, first: usize, most: usize) -> Turn
    requires { (first ≤ i) × (i - first ≤ most) }
    ensures { (result.slot.0 ≡ i) × (result.left ≡ most - (i - first)) }
{
    let slot = Slot::new(i);
    Turn {
        slot,
        left: most - (i - first),
    }
}

// Passes over slots that hold other keys, as the last four bytes show: most slots that a search reads. It does not go
// round the table's end, so that a slot's place is carried along.
pub fn pass_over(image: &[u8], shape: Shape, key: &[u8], from: Slot, most: usize) -> Turn
    requires { Open image.now shape × (from.0 < shape.slots) }
    ensures { (result.slot.0 < shape.slots)
        × GoesOn (layout_of image.now) image.now key.now
        most from.0 result.left result.slot.0 }
{
    let size = shape.keylen;
    let first = from.number();
    if key.len() != size {
        return Turn {
            slot: from,
            left: most,
        };
    }
    if size < 4 {
        return Turn {
            slot: from,
            left: most,
        };
    }
    let wanted = tail(key);
    let stop = first + lesser(most, shape.slots - 1 - first);
    let mut i = first;
    // Not a `for`, of which the compiler makes one instruction more a slot, ten for nine.
    while i < stop {
        let block = tail(key_of(image, shape, Slot::new(i)));
        if (block == wanted) | (block == 0) {
            return turn_at(i, first, most);
        }
        i += 1;
    }
    turn_at(i, first, most)
}

// From home upwards, wrapping, until the key is met, an empty slot is met, or all slots were read.
pub fn search(image: &[u8], shape: Shape, key: &[u8]) -> Probed
    requires { Open image.now shape }
    ensures { (probe_of result.found
        ≡ search (layout_of image.now) image.now key.now)
        × (result.read ≡ slots_read (layout_of image.now) image.now key.now) }
{
    let slots = shape.slots;
    let mut i = home(image, shape, key);
    let mut left = slots;
    // `pass_over` says how many slots are left, and the walk goes round the table: no index is counted.
    while 0 < left {
        let turn = pass_over(image, shape, key, i, left);
        if turn.left == 0 {
            return Probed {
                found: Found::Exhausted,
                read: slots,
            };
        }
        let read = slots - turn.left + 1;
        let slot = turn.slot;
        let stored = key_of(image, shape, slot);
        if same_bytes(stored, key) {
            return Probed {
                found: Found::Met(slot),
                read,
            };
        }
        if all_zero(stored) {
            return Probed {
                found: Found::Empty(slot),
                read,
            };
        }
        i = slot.next(slots);
        left = turn.left - 1;
    }
    Probed {
        found: Found::Exhausted,
        read: slots,
    }
}

// Writes an entry over a slot's bytes.
pub fn write_entry(part: &mut [u8], key: &[u8], offset: Offset)
    requires { (length part.old ≡ length key.now + 4) × (offset.0 < 2 ^ 32) }
    ensures { part.new ≡ slot_bytes key.now offset.0 }
{
    let size = key.len();
    copy(&mut part[..size], key);
    write_u32(part, size, offset.at() as u32);
}

// Puts an entry into slot i.
pub fn put_entry(image: &mut [u8], shape: Shape, i: Slot, key: &[u8], offset: Offset)
    requires { Placed image.old shape × (i.0 < shape.slots) × (length key.now ≡ shape.keylen) × (offset.0 < 2 ^ 32) }
    ensures { image.new ≡ put_slot (layout_of image.old) image.old i.0 (slot_bytes key.now offset.0) }
{
    let size = shape.keylen;
    let a = i.start(size).at();
    let e = a + (size + 4);
    write_entry(&mut image[a..e], key, offset);
}

// Writes another offset into slot i.
pub fn set_offset(image: &mut [u8], shape: Shape, i: Slot, o: Offset)
    requires { Placed image.old shape × (i.0 < shape.slots) × (o.0 < 2 ^ 32) }
    ensures { image.new ≡ with_offset image.old i.0 o.0 }
{
    let size = shape.keylen;
    let a = i.start(size).at();
    write_u32(image, a + size, o.at() as u32);
}
