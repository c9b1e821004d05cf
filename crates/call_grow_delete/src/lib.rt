// Delete during growth, on a pair of images: every question is put before the first byte is written.
#![tactic(auto)]

ghost use Rattle.spec_growth.specs.Growth.{grow_delete};
ghost use Rattle.growth_named.specs.Names.{pair_of};
ghost use Rattle.growth_ready.specs.Ready.{Grown};

use call_delete::delete;
use growth_moves::move_some;
use growth_number::delete_number;
use growth_ready::{MOVES_EACH, move_named};
use header_layout::shape::read_shape;

// Deletes the key's point in the new image: it moves there first, if it is still in the old one, and up to 8 further
// points after it. Answers 0; or the number of the first question answered no, and then changes no byte of either
// image.
pub fn grow_delete(old: &mut [u8], new: &mut [u8], key: &[u8]) -> u32
    ensures { Grown (grow_delete (pair_of old.old new.old) key.now) result
        old.new new.new }
{
    let number = delete_number(old, new, key);
    if number != 0 {
        return number;
    }
    let shape = read_shape(old);
    let larger = read_shape(new);
    move_named(old, shape, new, larger, key);
    delete(new, key);
    move_some(old, shape, new, larger, MOVES_EACH);
    0
}
