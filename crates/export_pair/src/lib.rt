// Lookup, count and the entry at an epoch in growth as the exports tell them: the answer is the number, and which image
// has the text, places and lengths go to numbers of 32 bits that are lent.
#![tactic(auto)]

ghost use Rattle.std.specs.Prelude.{◌≡◌, cond, ◌&&◌};
ghost use Rattle.export_pair.specs.PairLooks.{PairLooks, PairCounts, PairShowsAt};

use call_grow_at_epoch::locate_pair_at;
use call_grow_lookup::{count_pair, locate_pair};

// 1 where a text is shown and the new image has it, else 0.
fn shown_in_new(shown: bool, newer: bool) -> u32
    ensures { result ≡ cond (shown && newer) 1 0 }
{
    if shown & newer {
        return 1;
    }
    0
}

// Where the key's message stands in growth: `second` is 1 where it is in the new image, else 0; its text's offset there
// and its length. All are 0 with no active message or when refused.
pub fn grow_lookup(
    old: &[u8],
    new: &[u8],
    key: &[u8],
    second: &mut u32,
    offset: &mut u32,
    length: &mut u32,
) -> u32
    ensures { PairLooks (record { old = old.entry.now; new = new.now }) key.now
        old.exit.now new.now result second.new offset.new length.new }
{
    let held = locate_pair(old, new, key);
    let found = held.located;
    let start = found.start.at();
    *second = shown_in_new(start != 0, held.in_new);
    *offset = start as u32;
    *length = found.length as u32;
    found.number
}

// How many points both images hold, 0 when refused.
pub fn grow_count(old: &[u8], new: &[u8], points: &mut u32) -> u32
    ensures { PairCounts (record { old = old.entry.now; new = new.now })
        old.exit.now new.now result points.new }
{
    let both = count_pair(old, new);
    *points = both.points;
    both.number
}

// The entry of the prism with that name with the largest epoch at most `epoch`, in growth: `shown` is its epoch;
// `second`, `offset` and `length` tell its message, as lookup in growth gives them; all 0 when refused.
pub fn grow_at_epoch(
    old: &[u8],
    new: &[u8],
    name: &[u8],
    epoch: u32,
    shown: &mut u32,
    second: &mut u32,
    offset: &mut u32,
    length: &mut u32,
) -> u32
    ensures { PairShowsAt (record { old = old.entry.now; new = new.now }) name.now epoch
        old.exit.now new.now result shown.new second.new offset.new
        length.new }
{
    let held = locate_pair_at(old, new, name, epoch);
    let entry = held.dated;
    let found = entry.located;
    let start = found.start.at();
    *shown = entry.epoch;
    *second = shown_in_new(start != 0, held.in_new);
    *offset = start as u32;
    *length = found.length as u32;
    found.number
}
