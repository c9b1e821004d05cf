// Where the next run of bytes that differ begins, and where it ends: looked for in windows alone.
#![tactic(auto)]

ghost use Rattle.std.specs.Prelude.{◌≤◌, ◌<◌, length};
ghost use Rattle.changes_windows.specs.Scans.{Differ, Passed, Changed, ToChange, RunTo};
ghost use Rattle.changes_windows.specs.Windows.{before, Kept};

use changes_windows::{Windows, ahead};

// The lowest place from `from` up to `to` where the two differ, or `to`. (By `find` it takes a third as long again.)
fn next_difference(old: &[u8], new: &[u8], from: usize, to: usize) -> usize
    requires { (from ≤ to) × (to ≤ length old.now) × (to ≤ length new.now) }
    ensures { Passed old.now new.now from to result }
{
    for i in from..to {
        if old[i] != new[i] {
            return i;
        }
    }
    to
}

// The lowest place from `from` up to `to` where the two are equal, or `to`.
fn next_equal(old: &[u8], new: &[u8], from: usize, to: usize) -> usize
    requires { (from ≤ to) × (to ≤ length old.now) × (to ≤ length new.now) }
    ensures { Changed old.now new.now from to result }
{
    for i in from..to {
        if old[i] == new[i] {
            return i;
        }
    }
    to
}

// The lowest place at or above `from` where the image before the call and the one after it differ, or their end.
pub fn next_change(work: &[u8], new: &[u8], w: Windows, from: usize) -> usize
    requires { Kept w work.now new.now × (from ≤ length new.now) }
    ensures { ToChange (before w work.now new.now) new.now from result }
{
    let size = new.len();
    let mut i = from;
    // From window to window: no index is counted.
    while i < size {
        let window = ahead(w, i, size);
        let end = window.end;
        i = next_difference(work, new, window.from, end);
        if i < end {
            return i;
        }
    }
    i
}

// The end of the run that begins at `from`.
pub fn run_end(work: &[u8], new: &[u8], w: Windows, from: usize) -> usize
    requires { Kept w work.now new.now × (from < length new.now)
        × Differ (before w work.now new.now) new.now from }
    ensures { RunTo (before w work.now new.now) new.now from result }
{
    let size = new.len();
    let mut i = from;
    // From window to window: no index is counted.
    while i < size {
        let window = ahead(w, i, size);
        let end = window.end;
        if i < window.from {
            return i;
        }
        i = next_equal(work, new, i, end);
        if i < end {
            return i;
        }
    }
    i
}
