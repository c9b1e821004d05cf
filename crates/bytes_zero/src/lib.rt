// Runs of bytes made zero, byte by byte, or in blocks of eight, the last of which may overlap the one before.
#![tactic(auto)]

ghost use Rattle.std.specs.Prelude.{◌≡◌, length, ◌+◌, ◌≤◌, ◌<◌};
ghost use Rattle.spec_file.specs.Bytes.{store, zeros};

// Makes every byte zero. (`fill` makes the last one apart from the others, by more code.)
pub fn zero(s: &mut [u8])
    ensures { s.new ≡ zeros (length s.old) }
{
    for b in s.iter_mut() {
        *b = 0;
    }
}

// Makes the eight bytes at i zero.
fn zero_eight(s: &mut [u8], i: usize)
    requires { i + 8 ≤ length s.old }
    ensures { s.new ≡ store s.old i (zeros 8) }
{
    s[i] = 0;
    s[i + 1] = 0;
    s[i + 2] = 0;
    s[i + 3] = 0;
    s[i + 4] = 0;
    s[i + 5] = 0;
    s[i + 6] = 0;
    s[i + 7] = 0;
}

// The place of the block behind the one at i, of which the last is at `last`.
fn next_block(i: usize, last: usize) -> usize
    requires { i < last }
    ensures { (i < result) × (result ≤ i + 8) × (result ≤ last) }
{
    if last - i < 8 {
        return last;
    }
    i + 8
}

// Makes every byte zero, of a run as short as a slot. In `zero` the compiler sees one run and calls memset for it,
// which takes longer than these blocks.
pub fn clear(s: &mut [u8])
    ensures { s.new ≡ zeros (length s.old) }
{
    let n = s.len();
    if n < 8 {
        zero(s);
        return;
    }
    let last = n - 8;
    // of a loop by `step_by(8)` the compiler would make a memset, too: 16 bytes take 5.0 ns for 2.5
    let mut i = 0;
    while i < last {
        zero_eight(s, i);
        i = next_block(i, last);
    }
    zero_eight(s, last);
}
