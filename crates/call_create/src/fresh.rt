// The image that create leaves.
ghost use Rattle.std.specs.Prelude.{◌≡◌, ◌≤◌, length};
ghost use Rattle.spec_file.specs.Limits.{header_size};
ghost use Rattle.spec_file.specs.Bytes.{store};
ghost use Rattle.spec_file.specs.Image.{data_start};
ghost use Rattle.spec_file.specs.Create.{fresh_header, fresh_image};
ghost use Rattle.spec_file.specs.Questions.{create_number};

use bytes_words::limits::{MAGIC, VERSION};
use bytes_zero::zero;
use header_scramble::numbers::write_numbers;
use header_scramble::write_scramble;
use header_sizes::data_start;

// Writes the header of an empty table; start is D. In the header's order: "BHTF", v and version, serial, K, N, C,
// multiplier, start value, F, E, scramble and table offsets, D, X = D, M = -1.
fn write_header(image: &mut [u8], size: u32, slots: u32, start: u32)
    requires { (header_size ≤ length image.old) × (start ≡ data_start size slots) }
    ensures { image.new ≡ store image.old 0 (fresh_header size slots) }
{
    let numbers = [
        MAGIC, VERSION, 0, size, slots, 0, 0x01000193, 0x811C9DC5, 32, 126, 512, 2048, start,
        start, 0xFFFFFFFF,
    ];
    write_numbers(image, 0, &numbers);
}

// Writes every byte of a fresh image.
pub fn write_fresh(image: &mut [u8], size: u32, slots: u32, seed: u32)
    requires { create_number (length image.old) size slots ≡ 0 }
    ensures { image.new ≡ fresh_image (length image.old) size slots seed }
{
    let start = data_start(size as usize, slots as usize) as u32;
    zero(image);
    write_header(image, size, slots, start);
    write_scramble(image, seed);
}
