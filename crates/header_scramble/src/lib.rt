// The scramble: 95 numbers from offset 512 on, drawn by the generator.
//     numbers   numbers written one behind the other
#![tactic(auto)]

pub mod numbers;

ghost use Rattle.std.specs.Prelude.{◌≡◌, ◌≤◌, length};
ghost use Rattle.spec_file.specs.Limits.{scramble_start, scramble_count};
ghost use Rattle.spec_file.specs.Bytes.{store};
ghost use Rattle.spec_file.specs.Create.{drawn_bytes};

use bytes_words::arith::step;
use bytes_words::fields::write_u32;
use bytes_words::limits::SCRAMBLE_START;

// Writes the scramble of a seed.
pub fn write_scramble(image: &mut [u8], seed: u32)
    requires { 892 ≤ length image.old }
    ensures { image.new ≡ store image.old scramble_start (drawn_bytes seed 0 scramble_count) }
{
    let mut state = seed;
    for i in 0..95 {
        let number = step(state);
        write_u32(image, SCRAMBLE_START + 4 * i, number);
        state = number;
    }
}
