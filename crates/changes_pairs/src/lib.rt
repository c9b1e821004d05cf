// What a call changed: the runs of bytes that differ between an image before it and after it, counted, and written into
// a slice as pairs of offset and length. The image before the call stands in a working slice, at its own places, as far
// as the windows go; outside of them the call wrote nothing.
#![tactic(auto)]

ghost use Rattle.std.specs.Prelude.{◌≡◌, ◌++◌, ◌+◌, ◌^◌, ◌≤◌, ◌<◌, length};
ghost use Rattle.spec_file.specs.Bytes.{store, digits};
ghost use Rattle.spec_changes.specs.Changes.{runs, pair_bytes, changes_in};
ghost use Rattle.changes_windows.specs.Scans.{Measured};
ghost use Rattle.changes_windows.specs.Windows.{before, Kept};

use bytes_words::fields::write_u32;
use changes_scan::{next_change, run_end};
use changes_windows::Windows;

// How many runs there are, and how many bytes they have together.
#[derive(Clone, Copy)]
pub struct Tally {
    pub pairs: usize,
    pub bytes: usize,
}

// The runs and their bytes, counted.
pub fn measure_within(work: &[u8], new: &[u8], w: Windows) -> Tally
    requires { Kept w work.now new.now }
    ensures { Measured (runs 0 (before w work.now new.now) new.now)
        (length new.now) result.pairs result.bytes }
{
    let mut pairs = 0;
    let mut bytes = 0;
    let mut at = next_change(work, new, w, 0);
    // From run to run, at uneven steps: no index is counted.
    while at < new.len() {
        let end = run_end(work, new, w, at);
        pairs += 1;
        bytes += end - at;
        at = next_change(work, new, w, end);
    }
    Tally {
        pairs: pairs,
        bytes: bytes,
    }
}

// Puts one pair at `to`.
fn put_pair(list: &mut [u8], to: usize, at: usize, size: usize)
    requires { (to + 8 ≤ length list.old) × (at < 2 ^ 32) × (size < 2 ^ 32) }
    ensures { list.new ≡ store list.old to (digits 4 at ++ digits 4 size) }
{
    write_u32(list, to, at as u32);
    write_u32(list, to + 4, size as u32);
}

// Writes the pairs of all runs from `place` on.
pub fn write_pairs_within(list: &mut [u8], place: usize, work: &[u8], new: &[u8], w: Windows)
    requires { Kept w work.now new.now
        × (length new.now < 2 ^ 32)
        × (place + length (pair_bytes (runs 0 (before w work.now new.now) new.now)) ≤ length list.old) }
    ensures { list.new
        ≡ store list.old place
        (pair_bytes (runs 0 (before w work.now new.now) new.now)) }
{
    let mut to = place;
    let mut at = next_change(work, new, w, 0);
    // From run to run, at uneven steps: no index is counted.
    while at < new.len() {
        let end = run_end(work, new, w, at);
        put_pair(list, to, at, end - at);
        to += 8;
        at = next_change(work, new, w, end);
    }
}

// Fills the list with the pairs, or, where they don't fit, with the single pair 0, L; answers how many it wrote.
// Whether they fit is known before the first is written.
pub fn fill_list_within(list: &mut [u8], work: &[u8], new: &[u8], w: Windows) -> u32
    requires { Kept w work.now new.now
        × (length new.now < 2 ^ 32)
        × (8 ≤ length list.old) }
    ensures { (result ≡ length (changes_in (length list.old)
        (before w work.now new.now) new.now))
        × (list.new
        ≡ store list.old 0
        (pair_bytes (changes_in (length list.old)
        (before w work.now new.now) new.now))) }
{
    let tally = measure_within(work, new, w);
    let pairs = tally.pairs;
    if 8 * pairs <= list.len() {
        write_pairs_within(list, 0, work, new, w);
        return pairs as u32;
    }
    put_pair(list, 0, 0, new.len());
    1
}
