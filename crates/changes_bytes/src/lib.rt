// What a call changed, further: the image's bytes kept before it, where it may write; the new bytes of the runs, one
// behind the other; and runs, pairs and bytes of two whole images.
#![tactic(auto)]

ghost use Rattle.std.specs.Prelude.{◌≡◌, ◌+◌, ◌-◌, ◌^◌, ◌≤◌, ◌<◌, length};
ghost use Rattle.spec_file.specs.Bytes.{part, store};
ghost use Rattle.spec_changes.specs.Changes.{runs, pair_bytes, changes_in, copied};
ghost use Rattle.spec_changes.specs.Journal.{new_bytes};
ghost use Rattle.changes_windows.specs.Scans.{Measured};
ghost use Rattle.changes_windows.specs.Windows.{windows_of, before, Kept};

use bytes_copy::copy;
use changes_pairs::{Tally, fill_list_within, measure_within, write_pairs_within};
use changes_scan::{next_change, run_end};
use changes_windows::{Windows, whole};

// Copies the bytes of new from `at` up to `end` to `to`; answers the place behind them.
pub fn put_part(out: &mut [u8], to: usize, new: &[u8], at: usize, end: usize) -> usize
    requires { (at ≤ end) × (end ≤ length new.now) × (to + (end - at) ≤ length out.old) }
    ensures { (out.new ≡ store out.old to (part new.now at (end - at)))
        × (result ≡ to + (end - at)) }
{
    let stop = to + (end - at);
    copy(&mut out[to..stop], &new[at..end]);
    stop
}

// Keeps the image's bytes in the windows, at their own places in the working slice.
pub fn keep(work: &mut [u8], image: &[u8], w: Windows)
    requires { Kept w work.old image.now }
    ensures { work.new ≡ copied (windows_of w) image.now work.old }
{
    put_part(work, 0, image, 0, w.end1);
    put_part(work, w.from2, image, w.from2, w.end2);
    put_part(work, w.from3, image, w.from3, w.end3);
    put_part(work, w.from4, image, w.from4, w.end4);
}

// Writes the new bytes of all runs from `place` on.
fn write_bytes_within(out: &mut [u8], place: usize, work: &[u8], new: &[u8], w: Windows)
    requires { Kept w work.now new.now
        × (place + length (new_bytes (runs 0 (before w work.now new.now) new.now) new.now)
        ≤ length out.old) }
    ensures { out.new
        ≡ store out.old place
        (new_bytes (runs 0 (before w work.now new.now) new.now) new.now) }
{
    let mut to = place;
    let mut at = next_change(work, new, w, 0);
    // From run to run, at uneven steps: no index is counted.
    while at < new.len() {
        let end = run_end(work, new, w, at);
        to = put_part(out, to, new, at, end);
        at = next_change(work, new, w, end);
    }
}

// The same of two whole images.
pub fn measure(old: &[u8], new: &[u8]) -> Tally
    requires { length old.now ≡ length new.now }
    ensures { Measured (runs 0 old.now new.now) (length old.now)
        result.pairs result.bytes }
{
    measure_within(old, new, whole(new.len()))
}

pub fn write_pairs(list: &mut [u8], place: usize, old: &[u8], new: &[u8])
    requires { (length old.now ≡ length new.now)
        × (length old.now < 2 ^ 32)
        × (place + length (pair_bytes (runs 0 old.now new.now)) ≤ length list.old) }
    ensures { list.new
        ≡ store list.old place (pair_bytes (runs 0 old.now new.now)) }
{
    write_pairs_within(list, place, old, new, whole(new.len()));
}

pub fn write_bytes(out: &mut [u8], place: usize, old: &[u8], new: &[u8])
    requires { (length old.now ≡ length new.now)
        × (place + length (new_bytes (runs 0 old.now new.now) new.now) ≤ length out.old) }
    ensures { out.new
        ≡ store out.old place
        (new_bytes (runs 0 old.now new.now) new.now) }
{
    write_bytes_within(out, place, old, new, whole(new.len()));
}

pub fn fill_list(list: &mut [u8], old: &[u8], new: &[u8]) -> u32
    requires { (length old.now ≡ length new.now)
        × (length old.now < 2 ^ 32)
        × (8 ≤ length list.old) }
    ensures { (result ≡ length (changes_in (length list.old) old.now new.now))
        × (list.new
        ≡ store list.old 0
        (pair_bytes (changes_in (length list.old) old.now new.now))) }
{
    fill_list_within(list, old, new, whole(new.len()))
}
