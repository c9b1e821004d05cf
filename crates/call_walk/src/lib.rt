// The key walk: the lowest taken slot at or above a number, and its key.
#![tactic(auto)]

ghost use Rattle.std.specs.Prelude.{◌≡◌, ◌<◌};
ghost use Rattle.spec_file.specs.Image.{layout_of};
ghost use Rattle.spec_file.specs.Inspect.{taken, next_taken, stop_at, key_walk, stop_number, key_shown};
ghost use Rattle.header_layout.specs.Shapes.{Open};
ghost use Rattle.call_walk.specs.Stops.{stop_of, stop_slot};

use header_layout::places::Slot;
use header_layout::shape::{Shape, read_shape};
use header_open::open_number;
use table_search::{is_vacant, key_of};

// How the walk ended: refused with a number, at a taken slot, or past the last one.
#[derive(Clone, Copy)]
pub enum Stop {
    Refused(u32),
    At(Slot),
    End,
}

// Whether slot i is taken.
pub fn is_taken(image: &[u8], shape: Shape, i: Slot) -> bool
    requires { Open image.now shape × (i.0 < shape.slots) }
    ensures { result ≡ taken (layout_of image.now) image.now i.0 }
{
    !is_vacant(image, shape, i)
}

// The lowest taken slot at or above a number.
pub fn lowest_taken(image: &[u8], shape: Shape, from: usize) -> Stop
    requires { Open image.now shape }
    ensures { stop_of result ≡ stop_at (next_taken (layout_of image.now) image.now from) }
{
    for i in from..shape.slots {
        let at = Slot::new(i);
        if is_taken(image, shape, at) {
            return Stop::At(at);
        }
    }
    Stop::End
}

// The walk from slot `from`: the lowest taken slot at or above it.
pub fn next_taken(image: &[u8], from: u32) -> Stop
    ensures { stop_of result ≡ key_walk image.now from }
{
    let number = open_number(image);
    if number != 0 {
        return Stop::Refused(number);
    }
    lowest_taken(image, read_shape(image), from as usize)
}

// The same with the slot's key as a part of the image. At the end and when refused the part is the image's first 0
// bytes and the slot 0; a key has at least 1 byte, so the part tells a slot from the end.
pub fn walk<'a>(image: &'a [u8], from: u32, number: &mut u32, slot: &mut u32) -> &'a [u8]
    ensures { (result.now ≡ key_shown image.now (key_walk image.now from))
        × (number.new ≡ stop_number (key_walk image.now from))
        × (slot.new ≡ stop_slot (key_walk image.now from)) }
{
    *number = 0;
    *slot = 0;
    let stop = next_taken(image, from);
    match stop {
        Stop::Refused(n) => {
            *number = n;
            &image[..0]
        }
        Stop::At(i) => {
            *slot = i.number() as u32;
            key_of(image, read_shape(image), i)
        }
        Stop::End => &image[..0],
    }
}
