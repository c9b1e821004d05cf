// Stretches in the order of their starts, window by window: whether each starts behind the end of the one before it.
// Then no two meet. Messages are read in the order of the file, each once.
#![tactic(auto)]

ghost use Rattle.std.specs.Prelude.{◌≡◌, true, ◌^◌, ◌≤◌, ◌<◌, length};
ghost use Rattle.spec_file.specs.Limits.{free_field};
ghost use Rattle.spec_file.specs.Image.{field, layout_of};
ghost use Rattle.message_stretch.specs.Checked.{start_in, end_in, Checked};
ghost use Rattle.message_stretch.specs.Stretches.{first_meeting};
ghost use Rattle.starts_list.specs.Starts.{starts_in};
ghost use Rattle.check_order.specs.Order.{Behind, end_before, OrderIn};

use bytes_words::arith::lesser;
use bytes_words::fields::read_u32;
use bytes_words::limits::{FREE_FIELD, POINTS_FIELD};
use header_layout::places::Slot;
use header_layout::shape::Shape;
use message_stretch::end_of;
use starts_list::{list_starts, next_width, slot_in, start_of_key};
use starts_sort::sort_starts;

// How many passes over the slots are made at most. Of 1,048,576 starts, windows that are at least half full list all in
// fewer.
const MOST_PASSES: usize = 96;

// The sweep's windows: below so many it is always faster than to see the order of starts, and from so many on slower,
// unless a point has fewer places than PLACES_EACH. Between them messages are to be long: a point has FAR_PLACES.
const SOME_SWEEPS: usize = 4;

const MANY_SWEEPS: usize = 8;

const PLACES_EACH: usize = 32;

const FAR_PLACES: usize = 160;

// Where the last of the keys' stretches ends, if all start from lo up to hi, the first not below `next`, and each other
// not below the end of the one before it; else 0. It is `next` where there are no keys.
fn end_of_all(image: &[u8], shape: Shape, keys: &[u64], lo: usize, hi: usize, next: usize) -> usize
    requires { Checked image.now shape shape.slots × (0 < lo) × (length keys.now < 2 ^ 32) }
    ensures { 0 < result → Behind (start_in image.now) (end_in image.now) shape.slots lo hi
        next keys.now (length keys.now)
        × (result ≡ end_before (end_in image.now) next keys.now (length keys.now)) }
{
    let mut end = next;
    for &key in keys {
        let o = start_of_key(image, shape, key, lo, hi);
        if hi <= o {
            return 0;
        }
        if o < end {
            return 0;
        }
        end = end_of(image, shape, Slot::new(slot_in(key)));
    }
    end
}

// The same of all starts from lo up to hi, as many as there are keys, once they are sorted.
fn pass_window(
    image: &[u8],
    shape: Shape,
    keys: &mut [u64],
    lo: usize,
    hi: usize,
    next: usize,
) -> usize
    requires { Checked image.now shape shape.slots × (0 < lo) × (lo ≤ hi) × (length keys.old < 2 ^ 32)
        × (length keys.old ≡ starts_in (start_in image.now) lo hi shape.slots) }
    ensures { 0 < result → OrderIn image.now shape lo next → OrderIn image.now shape hi result }
{
    sort_starts(keys, lo, hi);
    end_of_all(image, shape, keys, lo, hi, next)
}

// How far it is: what starts below `lo` is in order and ends at `next`, which is 0 where it is not in order. The next
// window is to have `width` places.
#[derive(Clone, Copy)]
struct Front {
    lo: usize,
    next: usize,
    width: usize,
}

// The window from lo up to hi, if there is room for its starts; else only a narrower one to come.
fn step(image: &[u8], shape: Shape, keys: &mut [u64], lo: usize, hi: usize, next: usize) -> Front
    requires { Checked image.now shape shape.slots × (0 < lo) × (lo < hi) × (hi < 2 ^ 32)
        × (length keys.old < 2 ^ 28) }
    ensures { (lo ≤ result.lo) × (result.lo ≤ hi) × (0 < result.width) × (result.width < 2 ^ 33)
        × (0 < result.next → OrderIn image.now shape lo next
        → OrderIn image.now shape result.lo result.next) }
{
    let n = list_starts(image, shape, keys, lo, hi);
    let width = next_width(hi - lo, n, keys.len());
    if keys.len() < n {
        return Front { lo, next, width };
    }
    let end = pass_window(image, shape, &mut keys[..n], lo, hi, next);
    Front {
        lo: hi,
        next: end,
        width,
    }
}

// How many places the first window is to have, of so many in which so many points stand: as many as take seven eighths
// of the room.
fn first_width(span: usize, points: usize, room: usize) -> usize
    requires { (span < 2 ^ 32) × (points < 2 ^ 32) × (0 < room) }
    ensures { (0 < result) × (result < 2 ^ 33) }
{
    span / (points / (room - room / 8) + 1) + 1
}

// Window by window, from the data area's start to X, in no more than so many passes: whether all are in order.
fn pass_all(
    image: &[u8],
    shape: Shape,
    keys: &mut [u64],
    free: usize,
    first: usize,
    passes: usize,
) -> bool
    requires { Checked image.now shape shape.slots × (length keys.old < 2 ^ 28)
        × (free ≡ field image.now free_field) × (0 < first) × (first < 2 ^ 33) }
    ensures { result ≡ true
        → first_meeting (layout_of image.now) image.now shape.slots ≡ shape.slots }
{
    let area = shape.area;
    let mut lo = area.at();
    let mut next = lo;
    let mut width = first;
    for _ in 0..passes {
        if free <= lo {
            return true;
        }
        let front = step(image, shape, keys, lo, lesser(free, lo + width), next);
        if front.next == 0 {
            return false;
        }
        lo = front.lo;
        next = front.next;
        width = front.width;
    }
    free <= lo
}

// Whether the order of so many points in so many places is seen faster than so many windows are swept.
fn order_pays(span: usize, points: usize, sweeps: usize) -> bool
    requires { points < 2 ^ 32 }
{
    if sweeps < SOME_SWEEPS {
        return false;
    }
    if sweeps < MANY_SWEEPS {
        return FAR_PLACES * points <= span;
    }
    PLACES_EACH * points <= span
}

// Whether it is seen, with the keys as room, that no two stretches of taken slots meet. It is asked where that takes
// less than the sweep, whose windows have 64 places for each key.
pub fn none_meet(image: &[u8], shape: Shape, keys: &mut [u64]) -> bool
    requires { Checked image.now shape shape.slots × (0 < length keys.old) × (length keys.old < 2 ^ 28) }
    ensures { result ≡ true
        → first_meeting (layout_of image.now) image.now shape.slots ≡ shape.slots }
{
    let free = read_u32(image, FREE_FIELD) as usize;
    let points = read_u32(image, POINTS_FIELD) as usize;
    let area = shape.area;
    let span = free - area.at();
    let room = keys.len();
    if !order_pays(span, points, span / (64 * room)) {
        return false;
    }
    let width = first_width(span, points, room);
    pass_all(image, shape, keys, free, width, MOST_PASSES)
}
