// Create: an empty control point file in the slice that is lent.
//     asked   questions 1 to 4
//     fresh   every byte of the new image
#![tactic(auto)]

pub mod asked;
pub mod fresh;

ghost use Rattle.std.specs.Prelude.{◌≡◌};
ghost use Rattle.spec_file.specs.Calls.{create};

use crate::asked::{create_number, slots_asked};
use crate::fresh::write_fresh;

// Makes the slice an empty file for keys of size bytes, with a number of slots (0 means 5,507) and the seed's scramble.
// Answers 0; or the number of the first question answered no, and then changes no byte.
pub fn create(image: &mut [u8], size: u32, slots: u32, seed: u32) -> u32
    ensures value { result ≡ (create image.old size slots seed).answer.number }
    ensures image_after { image.new ≡ (create image.old size slots seed).after }
{
    let meant = slots_asked(slots);
    let number = create_number(image.len(), size, meant);
    if number != 0 {
        return number;
    }
    write_fresh(image, size, meant, seed);
    0
}
