// Two points on one message: the lowest slot whose stretch meets that of a lower-numbered one. The data area is swept
// window by window, each as wide as a map of marks that the caller lends. The image is only read.
//     window     the slots, in rising order, in one window
#![tactic(auto)]

pub mod window;

ghost use Rattle.std.specs.Prelude.{◌≡◌, ◌^◌, ◌<◌, length};
ghost use Rattle.spec_file.specs.Image.{layout_of};
ghost use Rattle.message_stretch.specs.Checked.{Checked};
ghost use Rattle.message_stretch.specs.Stretches.{first_meeting};

use crate::window::window;
use bytes_words::arith::lesser;
use bytes_words::fields::read_u32;
use bytes_words::limits::FREE_FIELD;
use header_layout::shape::Shape;

// The lowest slot below `bound` whose stretch meets that of a lower-numbered taken slot; `bound` where there is none.
// Below `bound` every taken slot's message passes question 11. Window by window, from the data area's start to X; no
// more of the map, whatever it holds, is used than the window needs.
pub fn sweep(image: &[u8], shape: Shape, map: &mut [u64], bound: usize) -> usize
    requires { Checked image.now shape bound × (0 < length map.old) × (length map.old < 2 ^ 32) }
    ensures { result ≡ first_meeting (layout_of image.now) image.now bound }
{
    let free = read_u32(image, FREE_FIELD) as usize;
    let area = shape.area;
    let width = 64 * map.len();
    let mut best = bound;
    let mut carried = bound;
    for lo in (area.at()..free).step_by(width) {
        let hi = lesser(free, lo + width);
        let cells = (hi - lo + 63) / 64;
        let front = window(image, shape, &mut map[..cells], lo, hi, best, carried);
        best = front.best;
        carried = front.carried;
    }
    best
}
