// Marks, 64 to a word.
#![tactic(auto)]

ghost use Rattle.std.specs.Prelude.{◌≡◌, ◌-◌, ◌*◌, ◌^◌, ◌≤◌, ◌<◌, length};
ghost use Rattle.spec_file.specs.Bytes.{zeros};
ghost use Rattle.check_marks.specs.Marks.{Claimed};

use bytes_words::arith::lesser;

// A word with every bit.
const EVERY_BIT: u64 = 18446744073709551615;

// Clears all marks.
pub fn clear(map: &mut [u64])
    requires { length map.old < 2 ^ 32 }
    ensures { map.new ≡ zeros (length map.old) }
{
    map.fill(0);
}

// The bits from `low` up to `high`, at least one.
fn mask(low: usize, high: usize) -> u64
    requires { (low < high) × (high ≤ 64) }
    ensures { result ≡ 2 ^ high - 2 ^ low }
{
    (EVERY_BIT >> (64 - (high - low))) << low
}

// Whether a mark stands in the places from `from` up to `to`; where none does, all of them are marked.
pub fn claim(map: &mut [u64], from: usize, to: usize) -> bool
    requires { (from ≤ to) × (to ≤ 64 * length map.old) }
    ensures { Claimed map.old map.new from to result }
{
    let mut q = from;
    // From word to word, of which the first and the last are parts: uneven steps.
    while q < to {
        let cell = q / 64;
        let low = q % 64;
        let high = lesser(64, low + (to - q));
        let bits = mask(low, high);
        let held = map[cell];
        if held & bits != 0 {
            return true;
        }
        map[cell] = held | bits;
        q += high - low;
    }
    false
}
