// The next run of bytes in which two images differ, from a place on: equal blocks of 64 bytes are passed over at once.
#![tactic(auto)]

ghost use Rattle.std.specs.Prelude.{◌≡◌, ◌+◌, ◌≤◌, length};
ghost use Rattle.spec_file.specs.Bytes.{part, same};
ghost use Rattle.changes_windows.specs.Scans.{rest};
ghost use Rattle.spec_next.specs.Next.{lesser, next_run, NextChange};

use bytes_compare::same_bytes;
use changes_scan::{next_change, run_end};
use changes_windows::whole;

// A run: where it begins, and how many bytes it has.
#[derive(Clone, Copy)]
pub struct Run {
    pub at: usize,
    pub size: usize,
}

// The lesser of two lengths.
fn lesser_of(a: usize, b: usize) -> usize
    ensures { result ≡ lesser a b }
{
    a.min(b)
}

// Whether both have the same 64 bytes from i on.
fn same_block(old: &[u8], new: &[u8], i: usize) -> bool
    requires { (i + 64 ≤ length old.now) × (i + 64 ≤ length new.now) }
    ensures { result ≡ same (part old.now i 64) (part new.now i 64) }
{
    let end = i + 64;
    same_bytes(&old[i..end], &new[i..end])
}

// A place at or behind `from`, with equal bytes up to it; from there on fewer than 64 are left, or two of 64 differ.
fn past_blocks(old: &[u8], new: &[u8], from: usize) -> usize
    requires { (length old.now ≡ length new.now) × (from ≤ length new.now) }
    ensures { (result ≤ length new.now)
        × (rest old.now new.now from ≡ rest old.now new.now result) }
{
    let end = new.len();
    let mut i = from;
    // a while: behind a for over the whole blocks, the place where they end would be worked out anew
    while 64 <= end - i {
        if !same_block(old, new, i) {
            return i;
        }
        i += 64;
    }
    i
}

// The next run of two images of the same length.
fn next_within(old: &[u8], new: &[u8], from: usize) -> Run
    requires { length old.now ≡ length new.now }
    ensures { (result.at ≡ (next_run from old.now new.now).at)
        × (result.size ≡ (next_run from old.now new.now).size) }
{
    let end = new.len();
    if end <= from {
        return Run { at: end, size: 0 };
    }
    let near = past_blocks(old, new, from);
    let w = whole(end);
    let at = next_change(old, new, w, near);
    if end <= at {
        return Run { at: end, size: 0 };
    }
    let stop = run_end(old, new, w, at);
    Run {
        at: at,
        size: stop - at,
    }
}

// The next run of any two strings of bytes, as far as both go: answers where it begins, and tells how many bytes it
// has. Where none is left, that is the end of the shorter, and 0.
pub fn next_run(old: &[u8], new: &[u8], from: usize, size: &mut usize) -> usize
    ensures { NextChange old.now new.now from
        old.now new.now result size.new }
{
    let end = lesser_of(old.len(), new.len());
    let run = next_within(&old[..end], &new[..end], from);
    *size = run.size;
    run.at
}
