// Numbers written one behind the other.
ghost use Rattle.std.specs.Prelude.{◌≡◌, ◌+◌, ◌*◌, ◌≤◌, length};
ghost use Rattle.spec_file.specs.Bytes.{store};
ghost use Rattle.header_scramble.specs.Numbers.{all_digits};

use bytes_words::fields::write_u32;

// Writes the numbers from `at` on.
pub fn write_numbers(image: &mut [u8], at: usize, numbers: &[u32])
    requires { at + 4 * length numbers.now ≤ length image.old }
    ensures { image.new ≡ store image.old at (all_digits numbers.now) }
{
    for (i, &number) in numbers.iter().enumerate() {
        write_u32(image, at + 4 * i, number);
    }
}
