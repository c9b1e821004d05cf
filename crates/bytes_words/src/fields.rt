// Stored numbers, most significant byte first, by shifts, ors and masks.
ghost use Rattle.std.specs.Prelude.{◌≡◌, ◌+◌, ◌*◌, ◌/◌, ◌%◌, ◌^◌, ◌<◌, ◌≤◌, [], ◌∷◌, length, slice_index};
ghost use Rattle.spec_file.specs.Bytes.{part, store, number, digits};
ghost use Rattle.spec_file.specs.Image.{field, set_field};

// Four bytes as a number, least significant first, which is the machine's own order: one load.
pub fn read_little(s: &[u8], at: usize) -> u32
    requires { at + 4 ≤ length s.now }
    ensures { result ≡ slice_index s.now (at + 3) * 16777216 + (slice_index s.now (at + 2) * 65536
        + (slice_index s.now (at + 1) * 256 + slice_index s.now at)) }
{
    ((s[at + 3] as u32) << 24)
        | ((s[at + 2] as u32) << 16)
        | ((s[at + 1] as u32) << 8)
        | (s[at] as u32)
}

// The number with its four bytes in the other order: one instruction.
fn swapped(x: u32) -> u32
    ensures { result ≡ x % 256 * 16777216 + (x / 256 % 256 * 65536 + (x / 65536 % 256 * 256 + x / 16777216)) }
{
    ((x & 255) << 24) | (((x >> 8) & 255) << 16) | (((x >> 16) & 255) << 8) | (x >> 24)
}

// The number that stands at `at`. By a load and a swap, and not by four bytes, of which a caller's sums and comparisons
// would take some apart.
pub fn read_u32(s: &[u8], at: usize) -> u32
    requires { at + 4 ≤ length s.now }
    ensures { result ≡ field s.now at }
{
    swapped(read_little(s, at))
}

// Four bytes of a number stored, least significant first: one store.
fn write_little(s: &mut [u8], at: usize, w: u32)
    requires { at + 4 ≤ length s.old }
    ensures { s.new
        ≡ store s.old at (w % 256 ∷ w / 256 % 256 ∷ w / 65536 % 256 ∷ w / 16777216 ∷ []) }
{
    s[at] = (w & 255) as u8;
    s[at + 1] = ((w >> 8) & 255) as u8;
    s[at + 2] = ((w >> 16) & 255) as u8;
    s[at + 3] = (w >> 24) as u8;
}

// Puts v at `at`. By a swap and a store, and not by four bytes: of two fields that are written one behind the other the
// compiler would store each byte alone, and who reads them next as a word would wait for all of them.
pub fn write_u32(s: &mut [u8], at: usize, v: u32)
    requires { at + 4 ≤ length s.old }
    ensures { s.new ≡ set_field s.old at v }
{
    write_little(s, at, swapped(v));
}

// The number of 3 bytes that stands behind the byte at `at`: one load of four, and a mask.
pub fn read_low_u24(s: &[u8], at: usize) -> u32
    requires { at + 4 ≤ length s.now }
    ensures { result ≡ number (part s.now (at + 1) 3) }
{
    read_u32(s, at) & 0xffffff
}

// Puts the byte b at `at`, and v behind it in 3 bytes: one store.
pub fn write_low_u24(s: &mut [u8], at: usize, b: u8, v: u32)
    requires { (at + 4 ≤ length s.old) × (v < 2 ^ 24) }
    ensures { s.new ≡ store s.old at (b ∷ digits 3 v) }
{
    write_u32(s, at, ((b as u32) << 24) | v);
}
