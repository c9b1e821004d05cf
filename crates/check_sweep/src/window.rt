// A window of the data area: the slots in rising order, each marking the places of its stretch. The first that meets a
// mark meets a lower-numbered slot and ends the pass.
ghost use Rattle.std.specs.Prelude.{◌≡◌, ℕ, ◌-◌, ◌*◌, ◌^◌, ◌<◌, ◌≤◌, length, if◌then◌else◌, ◌≢◌, nat_lt};
ghost use Rattle.check_marks.specs.Marks.{marked};
ghost use Rattle.message_stretch.specs.Checked.{start_in, end_in};
ghost use Rattle.message_stretch.specs.Windows.{Window, Unseen, Swept};

use bytes_words::arith::lesser;
use check_marks::{claim, clear};
use header_layout::places::Slot;
use header_layout::shape::Shape;
use message_stretch::shown_of;
use table_search::offset_of;

// best: the lowest slot known to meet a lower-numbered one, or the bound. carried: the slot below it whose stretch goes
// on across the window's end, or a number that is not below it.
#[derive(Clone, Copy)]
pub struct Front {
    pub best: usize,
    pub carried: usize,
}

// The slot carried on: i, if its stretch goes on across hi.
fn carried_on(end: usize, hi: usize, i: usize, next: usize) -> usize
    ensures { result ≡ (if nat_lt hi end then i else next) }
{
    if hi < end { i } else { next }
}

// How far slots may be passed over from `from` on: up to the carried one, or to `best`.
fn stop_at(from: usize, best: usize, carried: usize) -> usize
    requires { from ≤ best }
    ensures { (from ≤ result) × (result ≤ best) × ((j : ℕ) → from ≤ j → j < result → j ≢ carried) }
{
    if carried < from {
        return best;
    }
    lesser(carried, best)
}

// Passes over the slots of which the window shows nothing, from `from` on: most slots, where there are many windows.
// One load and one comparison a slot: below lo the difference wraps.
fn next_shown(
    image: &[u8],
    shape: Shape,
    from: usize,
    lo: usize,
    hi: usize,
    best: usize,
    carried: usize,
) -> usize
    requires { Window image.now shape lo hi best carried × (from ≤ best) }
    ensures { (from ≤ result) × (result ≤ best)
        × Unseen (start_in image.now) (end_in image.now) lo hi from result }
{
    let stop = stop_at(from, best, carried);
    let span = hi - lo;
    for i in from..stop {
        let o = offset_of(image, shape, Slot::new(i)).at();
        if std::num::wrapping_sub_usize(o, lo) < span {
            return i;
        }
    }
    stop
}

// The slots below `best` in the window from lo up to hi, whose marks are all clear.
fn pass(
    image: &[u8],
    shape: Shape,
    map: &mut [u64],
    lo: usize,
    hi: usize,
    best: usize,
    carried: usize,
) -> Front
    requires { Window image.now shape lo hi best carried × (hi - lo ≤ 64 * length map.old)
        × ((q : ℕ) → marked map.old q ≡ 0) }
    ensures { Swept (start_in image.now) (end_in image.now) best hi
        result.best result.carried }
{
    let mut next = best;
    let mut i = next_shown(image, shape, 0, lo, hi, best, carried);
    // From shown slot to shown slot, at uneven steps: no index is counted.
    while i < best {
        let shown = shown_of(image, shape, Slot::new(i), lo, hi, carried);
        let from = shown.from;
        let end = shown.end;
        if claim(map, from - lo, lesser(end, hi) - lo) {
            return Front {
                best: i,
                carried: next,
            };
        }
        next = carried_on(end, hi, i, next);
        i = next_shown(image, shape, i + 1, lo, hi, best, carried);
    }
    Front {
        best,
        carried: next,
    }
}

// The same with any marks, which are cleared first.
pub fn window(
    image: &[u8],
    shape: Shape,
    map: &mut [u64],
    lo: usize,
    hi: usize,
    best: usize,
    carried: usize,
) -> Front
    requires { Window image.now shape lo hi best carried × (hi - lo ≤ 64 * length map.old)
        × (length map.old < 2 ^ 32) }
    ensures { Swept (start_in image.now) (end_in image.now) best hi
        result.best result.carried }
{
    clear(map);
    pass(image, shape, map, lo, hi, best, carried)
}
