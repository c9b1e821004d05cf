// Ranges of key bytes, a lowest and a highest byte for each position: question 22, and whether a key lies in them.
#![tactic(auto)]

ghost use Rattle.std.specs.Prelude.{◌≡◌, ◌<◌, ◌≤◌, ◌&&◌, length, ◌==◌, slice_index};
ghost use Rattle.spec_range.specs.Ranges.{in_range, key_in_ranges, ranges_allowed};
ghost use Rattle.range_match.specs.Positions.{Ordered, Free, AskedIn};

// Question 22: as many lowest and highest bytes as a key has, and no lowest above its highest.
pub fn ranges_allowed(size: usize, lowest: &[u8], highest: &[u8]) -> bool
    ensures { result ≡ ranges_allowed size lowest.now highest.now }
{
    if lowest.len() != size {
        return false;
    }
    if highest.len() != size {
        return false;
    }
    for i in 0..size {
        if highest[i] < lowest[i] {
            return false;
        }
    }
    true
}

// The positions that are asked, from `first` up to `end`: all others are free.
#[derive(Clone, Copy)]
pub struct Asked {
    pub first: usize,
    pub end: usize,
}

// Whether a position is free: its range takes every byte.
fn is_free(lowest: &[u8], highest: &[u8], p: usize) -> bool
    requires { (p < length lowest.now) × (p < length highest.now) }
    ensures { result ≡ (slice_index lowest.now p == 0 && slice_index highest.now p == 255) }
{
    (lowest[p] == 0) & (highest[p] == 255)
}

// Where the last position ends that is not free.
fn last_asked(lowest: &[u8], highest: &[u8]) -> usize
    requires { length lowest.now ≡ length highest.now }
    ensures { (result ≤ length lowest.now)
        × Free lowest.now highest.now result (length lowest.now) }
{
    for p in (0..lowest.len()).rev() {
        if !is_free(lowest, highest, p) {
            return p + 1;
        }
    }
    0
}

// The first position below `end` that is not free.
fn first_asked(lowest: &[u8], highest: &[u8], end: usize) -> usize
    requires { (end ≤ length lowest.now) × (length lowest.now ≡ length highest.now) }
    ensures { (result ≤ end) × Free lowest.now highest.now 0 result }
{
    for first in 0..end {
        if !is_free(lowest, highest, first) {
            return first;
        }
    }
    end
}

// The positions that are asked: found once, so that no key is looked at where every byte is taken.
pub fn asked_positions(lowest: &[u8], highest: &[u8]) -> Asked
    requires { (length lowest.now ≡ length highest.now) × Ordered lowest.now highest.now }
    ensures { AskedIn lowest.now highest.now result.first result.end }
{
    let end = last_asked(lowest, highest);
    let first = first_asked(lowest, highest, end);
    Asked { first, end }
}

// Whether a byte lies in its range. One comparison and not two, of which each would be foretold wrongly at times: a
// byte below the lowest wraps round, to more than the range is wide.
fn in_range(lowest: u8, highest: u8, byte: u8) -> bool
    requires { lowest ≤ highest }
    ensures { result ≡ in_range lowest highest byte }
{
    std::num::wrapping_sub_u8(byte, lowest) <= highest - lowest
}

// Whether every byte of the key lies in its range; the first that does not ends it.
pub fn key_in_ranges(key: &[u8], lowest: &[u8], highest: &[u8], asked: Asked) -> bool
    requires { AskedIn lowest.now highest.now asked.first asked.end
        × (length key.now ≡ length lowest.now) × (length highest.now ≡ length lowest.now) }
    ensures { result ≡ key_in_ranges lowest.now highest.now key.now }
{
    for i in asked.first..asked.end {
        if !in_range(lowest[i], highest[i], key[i]) {
            return false;
        }
    }
    true
}
