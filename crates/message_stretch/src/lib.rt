// A slot's stretch, from its message's header to the message's end, and what a window of the data area shows of it.
#![tactic(auto)]

ghost use Rattle.std.specs.Prelude.{◌≡◌, ◌<◌, ◌≤◌};
ghost use Rattle.header_layout.specs.Shapes.{Open};
ghost use Rattle.message_stretch.specs.Checked.{start_in, end_in, Readable};
ghost use Rattle.message_stretch.specs.Windows.{within, Piece, Carried};

use header_layout::places::Slot;
use header_layout::shape::Shape;
use message_read::{length_at, text_start};
use table_search::{is_vacant, offset_of};

// What a window shows of a slot's stretch: where it starts there, and where it ends, maybe past the window. Both are
// the window's end where it shows nothing.
#[derive(Clone, Copy)]
pub struct Shown {
    pub from: usize,
    pub end: usize,
}

// Where the stretch of slot i starts, if in the window from lo up to hi; else hi. Only of such a slot the key is read.
pub fn start_in(image: &[u8], shape: Shape, i: Slot, lo: usize, hi: usize) -> usize
    requires { Open image.now shape × (i.0 < shape.slots) × (0 < lo) }
    ensures { result ≡ within lo hi (start_in image.now i.0) }
{
    let o = offset_of(image, shape, i).at();
    if o < lo {
        return hi;
    }
    if hi <= o {
        return hi;
    }
    if is_vacant(image, shape, i) {
        return hi;
    }
    o
}

// Where the stretch of slot i ends.
pub fn end_of(image: &[u8], shape: Shape, i: Slot) -> usize
    requires { Readable image.now shape i.0 × (0 < start_in image.now i.0) }
    ensures { result ≡ end_in image.now i.0 }
{
    let o = offset_of(image, shape, i);
    text_start(shape, o).at() + length_at(image, shape, o)
}

// What the window from lo up to hi shows of slot i; `carried` is the slot whose stretch goes on across lo. Only a
// message that the window shows is read.
pub fn shown_of(image: &[u8], shape: Shape, i: Slot, lo: usize, hi: usize, carried: usize) -> Shown
    requires { Readable image.now shape i.0 × (0 < lo) × (lo ≤ hi)
        × Carried (start_in image.now i.0) (end_in image.now i.0) lo i.0 carried }
    ensures { Piece (start_in image.now i.0) (end_in image.now i.0) lo hi
        result.from result.end }
{
    if i.number() == carried {
        return Shown {
            from: lo,
            end: end_of(image, shape, i),
        };
    }
    let from = start_in(image, shape, i, lo, hi);
    if hi <= from {
        return Shown { from: hi, end: hi };
    }
    Shown {
        from,
        end: end_of(image, shape, i),
    }
}
