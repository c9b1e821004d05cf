// The first write of an accepted call on a pair of images: the point that it names moves, if it is still in the old
// one.
#![tactic(auto)]

ghost use Rattle.std.specs.Prelude.{◌≡◌};
ghost use Rattle.spec_growth.specs.Growth.{old_probe, named_number};
ghost use Rattle.growth_named.specs.Names.{pair_of, Paired};
ghost use Rattle.growth_ready.specs.Ready.{IsReady};

use growth_move::move_point;
use header_layout::shape::Shape;
use table_search::{Found, search};

// How many points an accepted add or delete moves, besides the one that it names.
pub const MOVES_EACH: usize = 8;

// Moves the named point, whose move was found to be accepted, or none where the name is not in the old image.
pub fn move_named(old: &mut [u8], shape: Shape, new: &mut [u8], larger: Shape, key: &[u8])
    requires { Paired old.old new.old key.now shape larger
        × (named_number (pair_of old.old new.old) (old_probe (pair_of old.old new.old) key.now) ≡ 0) }
    ensures { IsReady old.old new.old key.now old.new
        new.new }
{
    let probed = search(old, shape, key);
    let found = probed.found;
    let Found::Met(slot) = found else {
        return;
    };
    move_point(old, shape, new, larger, slot);
}
