// What the converter's target needs for the active messages, and whether its headers can tell every length: one pass
// over the slots.
#![tactic(auto)]

ghost use Rattle.std.specs.Prelude.{◌≡◌};
ghost use Rattle.spec_file.specs.Image.{layout_of};
ghost use Rattle.spec_file.specs.Messages.{head_size};
ghost use Rattle.spec_conversion.specs.Convert.{other_layout, needs, needs_from, told, told_from};
ghost use Rattle.message_stretch.specs.Checked.{Readable, Checked};

use header_layout::places::Slot;
use header_layout::shape::Shape;
use message_read::{is_active, length_at};
use table_search::{is_vacant, offset_of};

// How many bytes the target needs, and whether its headers can tell each length.
#[derive(Clone, Copy)]
pub struct Needed {
    pub bytes: usize,
    pub told: bool,
}

// What the target needs for the message of slot i; head and most are its header's size and its largest length.
fn slot_need(source: &[u8], shape: Shape, head: usize, most: usize, i: Slot) -> Needed
    requires { Readable source.now shape i.0 × (head ≡ head_size (other_layout source.now))
        × (most ≡ (other_layout source.now).most) }
    ensures { (result.bytes
        ≡ needs (layout_of source.now) (other_layout source.now) source.now i.0)
        × (result.told
        ≡ told (layout_of source.now) (other_layout source.now) source.now i.0) }
{
    if is_vacant(source, shape, i) {
        return Needed {
            bytes: 0,
            told: true,
        };
    }
    let at = offset_of(source, shape, i);
    if !is_active(source, at) {
        return Needed {
            bytes: 0,
            told: true,
        };
    }
    let m = length_at(source, shape, at);
    let bytes = head + m;
    Needed {
        bytes,
        told: m <= most,
    }
}

// What it needs for all of them.
pub fn need(source: &[u8], shape: Shape, head: usize, most: usize) -> Needed
    requires { Checked source.now shape shape.slots × (head ≡ head_size (other_layout source.now))
        × (most ≡ (other_layout source.now).most) }
    ensures { (result.bytes
        ≡ needs_from (layout_of source.now) (other_layout source.now) source.now
        (layout_of source.now).N 0)
        × (result.told
        ≡ told_from (layout_of source.now) (other_layout source.now) source.now
        (layout_of source.now).N 0) }
{
    let mut bytes = 0;
    let mut told = true;
    for i in 0..shape.slots {
        let one = slot_need(source, shape, head, most, Slot::new(i));
        bytes += one.bytes;
        told = told & one.told;
    }
    Needed { bytes, told }
}
