// Lookup, count and the entry at an epoch as the exports tell them: the answer is the number, and places and lengths go
// to numbers of 32 bits that are lent.
#![tactic(auto)]

ghost use Rattle.export_lookup.specs.Looks.{Looks, Counts, ShowsAt};

use call_at_epoch::locate_at;
use call_lookup::locate;

// Where the key's message stands: its text's offset and its length, both 0 with no active message or when refused.
pub fn lookup(image: &[u8], key: &[u8], offset: &mut u32, length: &mut u32) -> u32
    ensures { Looks image.now key.now
        image.now result offset.new length.new }
{
    let found = locate(image, key);
    let start = found.start;
    *offset = start.at() as u32;
    *length = found.length as u32;
    found.number
}

// How many points the file holds, 0 when refused.
pub fn count(image: &[u8], points: &mut u32) -> u32
    ensures { Counts image.now image.now result points.new }
{
    let counted = call_lookup::count(image);
    *points = counted.points;
    counted.number
}

// The entry of the prism with that name, of K − 4 bytes, with the largest epoch at most `epoch`: `shown` is its epoch,
// and `offset` and `length` are its message's, as lookup gives them; all 0 when refused.
pub fn at_epoch(
    image: &[u8],
    name: &[u8],
    epoch: u32,
    shown: &mut u32,
    offset: &mut u32,
    length: &mut u32,
) -> u32
    ensures { ShowsAt image.now name.now epoch
        image.now result shown.new offset.new length.new }
{
    let dated = locate_at(image, name, epoch);
    let found = dated.located;
    let start = found.start;
    *shown = dated.epoch;
    *offset = start.at() as u32;
    *length = found.length as u32;
    found.number
}
