// The hash of a key.
#![tactic(auto)]

ghost use Rattle.std.specs.Prelude.{◌≡◌, ◌+◌, ◌-◌, ◌*◌, ◌≤◌, length};
ghost use Rattle.spec_file.specs.Image.{hash_step, hash_from};

use bytes_words::arith::mul_u32;
use bytes_words::fields::read_u32;

// The hash h, taken one key byte c further. Where F is at most E, one comparison tells whether c is scrambled: below F
// the difference wraps.
pub fn hash_step(scramble: &[u8], multiplier: u32, first: u32, last: u32, h: u32, c: u8) -> u32
    requires { 4 * (last - first + 1) ≤ length scramble.now }
    ensures { result ≡ hash_step multiplier first last scramble.now h c }
{
    let x = mul_u32(h, multiplier);
    if last < first {
        return x;
    }
    let span = (last - first) as usize;
    let d = std::num::wrapping_sub_usize(c as usize, first as usize);
    if span < d {
        return x;
    }
    x ^ read_u32(scramble, 4 * d)
}

// The hash of the key, from the start value on.
pub fn hash(scramble: &[u8], multiplier: u32, start: u32, first: u32, last: u32, key: &[u8]) -> u32
    requires { 4 * (last - first + 1) ≤ length scramble.now }
    ensures { result ≡ hash_from multiplier first last scramble.now start key.now }
{
    let mut h = start;
    for &c in key {
        h = hash_step(scramble, multiplier, first, last, h, c);
    }
    h
}
