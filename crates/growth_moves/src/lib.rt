// So many points moved from the old image to the new one, each from the lowest taken slot.
#![tactic(auto)]

ghost use Rattle.growth_moves.specs.Several.{Paired, MovedSome};

use call_walk::{Stop, lowest_taken};
use growth_move::move_point;
use header_layout::shape::Shape;

// Moves the point in the old image's lowest taken slot, so many times or until none is left; a refused move ends it. A
// delete leaves no taken slot below the one that it takes, so that the next search begins there.
pub fn move_some(old: &mut [u8], shape: Shape, new: &mut [u8], larger: Shape, most: usize)
    requires { Paired old.old new.old shape larger }
    ensures { MovedSome old.old new.old most old.new new.new }
{
    let mut from = 0;
    for _ in 0..most {
        let stop = lowest_taken(old, shape, from);
        let Stop::At(i) = stop else {
            return;
        };
        let number = move_point(old, shape, new, larger, i);
        if number != 0 {
            return;
        }
        from = i.number();
    }
}
