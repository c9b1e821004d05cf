// The converter's target without its messages: the source's header in the other version, its scramble, and its keys in
// their slots, without offsets.
#![tactic(auto)]

ghost use Rattle.std.specs.Prelude.{◌≡◌, ◌+◌, ◌≤◌, ◌<◌, ◌^◌, length};
ghost use Rattle.spec_file.specs.Bytes.{part, store};
ghost use Rattle.spec_file.specs.Limits.{version_field, header_size, scramble_start, table_start};
ghost use Rattle.spec_file.specs.Image.{major_of, scramble, layout_of, slot_start};
ghost use Rattle.spec_conversion.specs.Convert.{other_version, bare_slot, bare_slots, bare_image};
ghost use Rattle.header_layout.specs.Shapes.{Open};

use bytes_copy::copy;
use bytes_words::limits::{
    FREE_FIELD, MAJOR, MINOR, PATCH, SCRAMBLE_START, VERSION_FIELD, WIDE_MAJOR,
};
use bytes_zero::zero;
use header_layout::places::{Offset, Slot};
use header_layout::shape::Shape;
use message_write::set_free;
use table_search::{key_of, write_entry};

// Copies n bytes of the source to the same place of the target.
fn carry(source: &[u8], target: &mut [u8], p: usize, n: usize)
    requires { (p + n ≤ length source.now) × (p + n ≤ length target.old) × (p + n < 2 ^ 32) }
    ensures { target.new ≡ store target.old p (part source.now p n) }
{
    let end = p + n;
    copy(&mut target[p..end], &source[p..end]);
}

// Writes the version's bytes, by the first one of the version that is carried over: 1, 0, 2 for 2.0, else 2, 0, 0.
fn write_version(part: &mut [u8], major: u8)
    requires { length part.old ≡ 3 }
    ensures { part.new ≡ other_version major }
{
    if major == WIDE_MAJOR {
        part[0] = MAJOR;
        part[1] = MINOR;
        part[2] = PATCH;
        return;
    }
    part[0] = WIDE_MAJOR;
    part[1] = 0;
    part[2] = 0;
}

// Writes the other version.
fn carry_version(source: &[u8], target: &mut [u8])
    requires { (header_size ≤ length source.now) × (header_size ≤ length target.old) }
    ensures { target.new
        ≡ store target.old version_field (other_version (major_of source.now)) }
{
    let major = source[VERSION_FIELD];
    write_version(&mut target[VERSION_FIELD..VERSION_FIELD + 3], major);
}

// Copies the scramble.
fn carry_scramble(source: &[u8], target: &mut [u8], shape: Shape)
    requires { Open source.now shape × ((layout_of source.now).D ≤ length target.old) }
    ensures { target.new ≡ store target.old scramble_start (scramble source.now) }
{
    let numbers = (shape.last - shape.first + 1) as usize;
    carry(source, target, SCRAMBLE_START, 4 * numbers);
}

// Writes slot i: its key, and no offset.
fn carry_key(source: &[u8], target: &mut [u8], shape: Shape, i: Slot)
    requires { Open source.now shape × ((layout_of source.now).D ≤ length target.old) × (i.0 < shape.slots) }
    ensures { target.new
        ≡ store target.old (slot_start (layout_of source.now) i.0)
        (bare_slot (layout_of source.now) source.now i.0) }
{
    let size = shape.keylen;
    let a = i.start(size).at();
    let e = a + (size + 4);
    let key = key_of(source, shape, i);
    write_entry(&mut target[a..e], key, Offset::new(0));
}

// Writes the table, slot by slot.
fn carry_keys(source: &[u8], target: &mut [u8], shape: Shape)
    requires { Open source.now shape × ((layout_of source.now).D ≤ length target.old) }
    ensures { target.new
        ≡ store target.old table_start
        (bare_slots (layout_of source.now) source.now (layout_of source.now).N 0) }
{
    for i in 0..shape.slots {
        carry_key(source, target, shape, Slot::new(i));
    }
}

// Writes every byte of the target.
pub fn write_bare(source: &[u8], target: &mut [u8], shape: Shape)
    requires { Open source.now shape × ((layout_of source.now).D ≤ length target.old) }
    ensures { target.new ≡ bare_image source.now (length target.old) }
{
    zero(target);
    carry(source, target, 0, FREE_FIELD);
    carry_version(source, target);
    carry_scramble(source, target, shape);
    carry_keys(source, target, shape);
    set_free(target, shape.area, shape.area);
}
