// Reading records that are stored by column, on a pair of images, in growth.
#![tactic(auto)]

ghost use Rattle.std.specs.Prelude.{◌≡◌};
ghost use Rattle.call_grow_read.specs.PairReads.{PairReads};

use call_grow_lookup::locate_pair;
use columns_fetch::{Fetched, fill, refused};

// Fills the slice with the records that are stored under the key, in the old image if it holds the point, else in the
// new one. Answers the number of the first question answered no, and then leaves the slice as it was; else 0, and how
// many bytes it filled: those after them stay.
pub fn read_pair(old: &[u8], new: &[u8], key: &[u8], out: &mut [u8]) -> Fetched
    ensures { PairReads (record { old = old.entry.now; new = new.now }) key.now
        out.old out.new result.number result.bytes }
{
    let held = locate_pair(old, new, key);
    let found = held.located;
    let number = found.number;
    if number != 0 {
        return refused(number);
    }
    let start = found.start.at();
    let end = start + found.length;
    if held.in_new {
        return fill(out, &new[start..end]);
    }
    fill(out, &old[start..end])
}
