// Text put into a slice from a place on; each answers the place behind it and leaves all other bytes.
#![tactic(auto)]

ghost use Rattle.std.specs.Prelude.{◌+◌, ◌≤◌, ◌<◌, [], ◌∷◌, ◌≡◌, length};
ghost use Rattle.lister_text.specs.Puts.{Put};
ghost use Rattle.lister_text.specs.Text.{decimal, hex_digit, hex_byte, hexes};

use bytes_copy::copy;

pub fn put_byte(out: &mut [u8], at: usize, b: u8) -> usize
    requires { at < length out.old }
    ensures { Put out.old at out.new result (b ∷ []) }
{
    out[at] = b;
    at + 1
}

pub fn put_bytes(out: &mut [u8], at: usize, bytes: &[u8]) -> usize
    requires { at + length bytes.now ≤ length out.old }
    ensures { Put out.old at out.new result bytes.now }
{
    let end = at + bytes.len();
    copy(&mut out[at..end], bytes);
    end
}

// A number in decimal: its tens, then its last digit.
pub fn put_decimal(out: &mut [u8], at: usize, n: usize) -> usize
    requires { at + length (decimal n) ≤ length out.old }
    ensures { Put out.old at out.new result (decimal n) }
{
    if n < 10 {
        return put_byte(out, at, 48 + (n as u8));
    }
    let end = put_decimal(out, at, n / 10);
    put_byte(out, end, 48 + ((n % 10) as u8))
}

fn hex_digit(d: u8) -> u8
    requires { d < 16 }
    ensures { result ≡ hex_digit d }
{
    if d < 10 {
        return 48 + d;
    }
    87 + d
}

// Two lower-case hexadecimal digits.
fn put_hex(out: &mut [u8], at: usize, b: u8) -> usize
    requires { at + 2 ≤ length out.old }
    ensures { Put out.old at out.new result (hex_byte b) }
{
    let end = put_byte(out, at, hex_digit(b / 16));
    put_byte(out, end, hex_digit(b % 16))
}

// A key: two digits a byte.
pub fn put_key(out: &mut [u8], at: usize, key: &[u8]) -> usize
    requires { at + length (hexes key.now) ≤ length out.old }
    ensures { Put out.old at out.new result (hexes key.now) }
{
    let mut end = at;
    for &b in key {
        end = put_hex(out, end, b);
    }
    end
}
