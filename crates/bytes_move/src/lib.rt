// Bytes copied from one place of a slice to another, from eight bytes on in blocks of eight, which may overlap.
#![tactic(auto)]

ghost use Rattle.std.specs.Prelude.{◌≡◌, ◌⊎◌, length, ◌+◌, ◌-◌, ◌≤◌};
ghost use Rattle.spec_file.specs.Bytes.{part, store};
ghost use Rattle.bytes_copy.specs.Moving.{Moving, Runs};

// Copies the n bytes from `from` on to `to`, byte by byte; the two runs do not meet.
fn move_bytes(s: &mut [u8], from: usize, to: usize, n: usize)
    requires { ((from + n ≤ to) ⊎ (to + n ≤ from)) × (from + n ≤ length s.old) × (to + n ≤ length s.old) }
    ensures { s.new ≡ store s.old to (part s.old from n) }
{
    for i in 0..n {
        s[to + i] = s[from + i];
    }
}

// Copies the eight bytes at `from` to `to`, within one run.
fn move_eight(s: &mut [u8], from: usize, to: usize)
    requires { (from + 8 ≤ length s.old) × (to + 8 ≤ length s.old) }
    ensures { s.new ≡ store s.old to (part s.old from 8) }
{
    let b0 = s[from];
    let b1 = s[from + 1];
    let b2 = s[from + 2];
    let b3 = s[from + 3];
    let b4 = s[from + 4];
    let b5 = s[from + 5];
    let b6 = s[from + 6];
    let b7 = s[from + 7];
    s[to] = b0;
    s[to + 1] = b1;
    s[to + 2] = b2;
    s[to + 3] = b3;
    s[to + 4] = b4;
    s[to + 5] = b5;
    s[to + 6] = b6;
    s[to + 7] = b7;
}

// Of at most 64 bytes whose first sixteen are copied, copies the others but for the last sixteen.
fn move_inner(s: &mut [u8], from: usize, to: usize, n: usize)
    requires { Runs s.old from to n × (n ≤ 64) × Moving s.old s.old from to n 16 }
    ensures { Moving s.old s.new from to n (n - 16) }
{
    if n <= 32 {
        return;
    }
    let third = n - 32;
    let fourth = n - 24;
    move_eight(s, from + 16, to + 16);
    move_eight(s, from + 24, to + 24);
    move_eight(s, from + third, to + third);
    move_eight(s, from + fourth, to + fourth);
}

// Of at most 64 bytes whose first eight are copied, copies the others but for the last eight.
fn move_middle(s: &mut [u8], from: usize, to: usize, n: usize)
    requires { Runs s.old from to n × (n ≤ 64) × Moving s.old s.old from to n 8 }
    ensures { Moving s.old s.new from to n (n - 8) }
{
    if n <= 16 {
        return;
    }
    let end = n - 16;
    move_eight(s, from + 8, to + 8);
    move_inner(s, from, to, n);
    move_eight(s, from + end, to + end);
}

// Copies 8 to 64 bytes but for the last eight, by blocks from both ends that may overlap, as `copy_short` of bytes_copy
// does. (By that `copy`, on the two parts of `split_at_mut`, 8 to 16 bytes take 4.4 ns for 3.9.)
fn move_short(s: &mut [u8], from: usize, to: usize, n: usize)
    requires { Runs s.old from to n × (8 ≤ n) × (n ≤ 64) }
    ensures { Moving s.old s.new from to n (n - 8) }
{
    move_eight(s, from, to);
    move_middle(s, from, to, n);
}

// Copies eight bytes or more but for the last eight, block by block.
fn move_blocks(s: &mut [u8], from: usize, to: usize, n: usize)
    requires { Runs s.old from to n × (8 ≤ n) }
    ensures { Moving s.old s.new from to n (n - 8) }
{
    let end = n - 8;
    for i in (0..end).step_by(8) {
        move_eight(s, from + i, to + i);
    }
}

// Copies eight bytes or more but for the last eight.
fn move_front(s: &mut [u8], from: usize, to: usize, n: usize)
    requires { Runs s.old from to n × (8 ≤ n) }
    ensures { Moving s.old s.new from to n (n - 8) }
{
    if n <= 64 {
        move_short(s, from, to, n);
    } else {
        move_blocks(s, from, to, n);
    }
}

// Copies eight bytes or more. Short and long share the last block, as in `copy_eights` of bytes_copy.
fn move_eights(s: &mut [u8], from: usize, to: usize, n: usize)
    requires { Runs s.old from to n × (8 ≤ n) }
    ensures { s.new ≡ store s.old to (part s.old from n) }
{
    let last = n - 8;
    move_front(s, from, to, n);
    move_eight(s, from + last, to + last);
}

// Copies the n bytes from `from` on to `to`; the two runs do not meet.
pub fn copy_apart(s: &mut [u8], from: usize, to: usize, n: usize)
    requires { ((from + n ≤ to) ⊎ (to + n ≤ from)) × (from + n ≤ length s.old) × (to + n ≤ length s.old) }
    ensures { s.new ≡ store s.old to (part s.old from n) }
{
    if n < 8 {
        move_bytes(s, from, to, n);
    } else {
        move_eights(s, from, to, n);
    }
}

// Copies the n bytes from `from` on to `to`, above them. The test of `copy_apart` is made here too: of two callers the
// compiler takes into neither the blocks, so that a caller with few bytes, or none, makes no call.
pub fn copy_up(s: &mut [u8], from: usize, to: usize, n: usize)
    requires { (from + n ≤ to) × (to + n ≤ length s.old) }
    ensures { s.new ≡ store s.old to (part s.old from n) }
{
    if n < 8 {
        move_bytes(s, from, to, n);
    } else {
        move_eights(s, from, to, n);
    }
}

// Copies the n bytes from `from` on to `to`, which is not above them; the two runs may meet.
pub fn copy_down(s: &mut [u8], from: usize, to: usize, n: usize)
    requires { (to ≤ from) × (from + n ≤ length s.old) }
    ensures { s.new ≡ store s.old to (part s.old from n) }
{
    s.copy_within(from..from + n, to);
}
