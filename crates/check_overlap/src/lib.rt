// The lowest slot whose stretch meets that of a lower-numbered one: the sweep of crate check_sweep, with its map on the
// stack. In a large data area it is first seen whether all stretches lie one behind the other, with the same words as
// room: mostly they do, and then there is none.
#![tactic(auto)]

ghost use Rattle.std.specs.Prelude.{◌≡◌, true, ◌^◌, ◌<◌, length};
ghost use Rattle.spec_file.specs.Image.{layout_of};
ghost use Rattle.message_stretch.specs.Checked.{Checked};
ghost use Rattle.message_stretch.specs.Stretches.{first_meeting};

use bytes_words::fields::read_u32;
use bytes_words::limits::FREE_FIELD;
use check_order::none_meet;
use check_sweep::sweep;
use header_layout::shape::Shape;

// The words of the three maps of marks.
const SMALL_MAP: usize = 512;

const MIDDLE_MAP: usize = 4096;

const LARGE_MAP: usize = 32768;

// With a map for a data area of at most 32 KiB.
fn meeting_small(image: &[u8], shape: Shape, bound: usize) -> usize
    requires { Checked image.now shape bound }
    ensures { result ≡ first_meeting (layout_of image.now) image.now bound }
{
    let mut map = [0; SMALL_MAP];
    sweep(image, shape, &mut map, bound)
}

// With a map for a data area of at most 256 KiB.
fn meeting_middle(image: &[u8], shape: Shape, bound: usize) -> usize
    requires { Checked image.now shape bound }
    ensures { result ≡ first_meeting (layout_of image.now) image.now bound }
{
    let mut map = [0; MIDDLE_MAP];
    sweep(image, shape, &mut map, bound)
}

// Whether it is seen by their order that no stretches meet; asked only where every slot is looked at.
fn seen_apart(image: &[u8], shape: Shape, room: &mut [u64], bound: usize) -> bool
    requires { Checked image.now shape bound × (0 < length room.old) × (length room.old < 2 ^ 28) }
    ensures { result ≡ true
        → bound ≡ first_meeting (layout_of image.now) image.now bound }
{
    if bound < shape.slots {
        return false;
    }
    none_meet(image, shape, room)
}

// By the order of the starts, or, where that does not tell, by the sweep, with the same room.
fn meeting_in(image: &[u8], shape: Shape, room: &mut [u64], bound: usize) -> usize
    requires { Checked image.now shape bound × (0 < length room.old) × (length room.old < 2 ^ 28) }
    ensures { result ≡ first_meeting (layout_of image.now) image.now bound }
{
    if seen_apart(image, shape, room, bound) {
        return bound;
    }
    sweep(image, shape, room, bound)
}

// With room for 32,768 starts, or a map for windows of 2 MiB.
fn meeting_large(image: &[u8], shape: Shape, bound: usize) -> usize
    requires { Checked image.now shape bound }
    ensures { result ≡ first_meeting (layout_of image.now) image.now bound }
{
    let mut room = [0; LARGE_MAP];
    meeting_in(image, shape, &mut room, bound)
}

// The lowest slot below `bound` whose stretch meets that of a lower-numbered taken slot; `bound` where there is none.
// Below `bound` every taken slot's message passes question 11. A small data area takes a small map, cheap to clear.
pub fn first_meeting(image: &[u8], shape: Shape, bound: usize) -> usize
    requires { Checked image.now shape bound }
    ensures { result ≡ first_meeting (layout_of image.now) image.now bound }
{
    let area = shape.area;
    let span = (read_u32(image, FREE_FIELD) as usize) - area.at();
    if span <= 64 * SMALL_MAP {
        return meeting_small(image, shape, bound);
    }
    if span <= 64 * MIDDLE_MAP {
        return meeting_middle(image, shape, bound);
    }
    meeting_large(image, shape, bound)
}
