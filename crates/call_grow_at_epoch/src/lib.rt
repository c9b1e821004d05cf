// The entry of a prism at an epoch on a pair of images, in growth. Both are searched; at a tie the old one's is shown.
//     locate_pair_at   the epoch, and where the active message stands and in which image, as numbers
//     at_epoch_pair    the message as a part of that image
#![tactic(auto)]

ghost use Rattle.std.specs.Prelude.{◌≡◌, length};
ghost use Rattle.spec_file.specs.Messages.{bytes_of, is_text};
ghost use Rattle.spec_growth.specs.Growth.{grow_at_epoch};
ghost use Rattle.call_grow_at_epoch.specs.Dates.{later_of, Dates};

use bytes_words::answers::{BAD_KEY, NO_EPOCHS};
use call_at_epoch::{Dated, EPOCH_SIZE, LEAST_KEY, refused, show};
use call_grow_lookup::is_met;
use epoch_choose::{Chosen, choose};
use growth_open::pair_number;
use header_layout::shape::read_shape;

// Whether the new image has the entry, and what the call answers there, as numbers; in the old one where it has not.
#[derive(Clone, Copy)]
pub struct PairDated {
    pub in_new: bool,
    pub dated: Dated,
}

// Whether the second of two entries that were chosen is the only one, or has the larger epoch.
fn is_later(first: Chosen, second: Chosen) -> bool
    ensures { result ≡ later_of first second }
{
    let found = second.found;
    if !is_met(found) {
        return false;
    }
    let before = first.found;
    if !is_met(before) {
        return true;
    }
    first.epoch < second.epoch
}

// The epoch of the entry of the name with the largest epoch at most t, and where its active message stands.
pub fn locate_pair_at(old: &[u8], new: &[u8], name: &[u8], t: u32) -> PairDated
    ensures { Dates (record { old = old.entry.now; new = new.now }) name.now t result }
{
    let number = pair_number(old, new);
    if number != 0 {
        let dated = refused(number);
        return PairDated {
            in_new: false,
            dated,
        };
    }
    let shape = read_shape(old);
    let size = shape.keylen;
    if size < LEAST_KEY {
        let dated = refused(NO_EPOCHS);
        return PairDated {
            in_new: false,
            dated,
        };
    }
    if name.len() + EPOCH_SIZE != size {
        let dated = refused(BAD_KEY);
        return PairDated {
            in_new: false,
            dated,
        };
    }
    let larger = read_shape(new);
    let first = choose(old, shape, name, t);
    let second = choose(new, larger, name, t);
    if is_later(first, second) {
        let dated = show(new, larger, second);
        return PairDated {
            in_new: true,
            dated,
        };
    }
    let dated = show(old, shape, first);
    PairDated {
        in_new: false,
        dated,
    }
}

// The same with the message as a part of the image that has the entry: its first 0 bytes where there is none or when
// refused, and then `shown` is false, which tells no message from an empty one.
pub fn at_epoch_pair<'a>(
    old: &'a [u8],
    new: &'a [u8],
    name: &[u8],
    t: u32,
    number: &mut u32,
    epoch: &mut u32,
    shown: &mut bool,
) -> &'a [u8]
    ensures number { number.new
        ≡ (grow_at_epoch (record { old = old.entry.now; new = new.now }) name.now t).number }
    ensures epoch { epoch.new
        ≡ (grow_at_epoch (record { old = old.entry.now; new = new.now }) name.now t).epoch }
    ensures shown { shown.new ≡ is_text
        (grow_at_epoch (record { old = old.entry.now; new = new.now }) name.now t).text }
    ensures text { result.now ≡ bytes_of
        (grow_at_epoch (record { old = old.entry.now; new = new.now }) name.now t).text }
    ensures length { length result.now
        ≡ (grow_at_epoch (record { old = old.entry.now; new = new.now }) name.now t).length }
{
    let found = locate_pair_at(old, new, name, t);
    let dated = found.dated;
    let located = dated.located;
    *number = located.number;
    *epoch = dated.epoch;
    let start = located.start.at();
    *shown = start != 0;
    let end = start + located.length;
    if found.in_new {
        return &new[start..end];
    }
    &old[start..end]
}
