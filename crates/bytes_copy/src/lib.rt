// Runs of bytes copied from one slice to another, from eight bytes on in blocks of eight, which may overlap.
#![tactic(auto)]

ghost use Rattle.std.specs.Prelude.{◌≡◌, length, ◌+◌, ◌-◌, ◌≤◌};
ghost use Rattle.spec_file.specs.Bytes.{part, store};
ghost use Rattle.bytes_copy.specs.Front.{Front};

// From so many bytes on a loop over bytes, which the compiler makes one over vectors behind an overlap test, is faster
// than blocks.
const LONG: usize = 256;

// Copies src over dst, byte by byte. (`copy_from_slice` calls memcpy: no bytes take 4.3 ns for 2.3, four 4.3 for 3.9.)
fn copy_bytes(dst: &mut [u8], src: &[u8])
    requires { length dst.old ≡ length src.now }
    ensures { dst.new ≡ src.now }
{
    for i in 0..dst.len() {
        dst[i] = src[i];
    }
}

// Copies the eight bytes at i from src to dst.
fn copy_eight(dst: &mut [u8], src: &[u8], i: usize)
    requires { (i + 8 ≤ length dst.old) × (i + 8 ≤ length src.now) }
    ensures { dst.new ≡ store dst.old i (part src.now i 8) }
{
    let b0 = src[i];
    let b1 = src[i + 1];
    let b2 = src[i + 2];
    let b3 = src[i + 3];
    let b4 = src[i + 4];
    let b5 = src[i + 5];
    let b6 = src[i + 6];
    let b7 = src[i + 7];
    dst[i] = b0;
    dst[i + 1] = b1;
    dst[i + 2] = b2;
    dst[i + 3] = b3;
    dst[i + 4] = b4;
    dst[i + 5] = b5;
    dst[i + 6] = b6;
    dst[i + 7] = b7;
}

// Of at most 64 bytes whose first sixteen are copied, copies the others but for the last sixteen.
fn copy_inner(dst: &mut [u8], src: &[u8])
    requires { Front dst.old src.now 16 × (length dst.old ≤ 64) }
    ensures { Front dst.new src.now (length src.now - 16) }
{
    let n = dst.len();
    if n <= 32 {
        return;
    }
    copy_eight(dst, src, 16);
    copy_eight(dst, src, 24);
    copy_eight(dst, src, n - 32);
    copy_eight(dst, src, n - 24);
}

// Of at most 64 bytes whose first eight are copied, copies the others but for the last eight.
fn copy_middle(dst: &mut [u8], src: &[u8])
    requires { Front dst.old src.now 8 × (length dst.old ≤ 64) }
    ensures { Front dst.new src.now (length src.now - 8) }
{
    let n = dst.len();
    if n <= 16 {
        return;
    }
    copy_eight(dst, src, 8);
    copy_inner(dst, src);
    copy_eight(dst, src, n - 16);
}

// Copies 8 to 64 bytes but for the last eight, by blocks from both ends that may overlap: two tests say how many, which
// the processor foresees better than the turns of a loop.
fn copy_short(dst: &mut [u8], src: &[u8])
    requires { (length dst.old ≡ length src.now) × (8 ≤ length dst.old) × (length dst.old ≤ 64) }
    ensures { Front dst.new src.now (length src.now - 8) }
{
    copy_eight(dst, src, 0);
    copy_middle(dst, src);
}

// Copies eight bytes or more but for the last eight, block by block.
fn copy_blocks(dst: &mut [u8], src: &[u8])
    requires { (length dst.old ≡ length src.now) × (8 ≤ length dst.old) }
    ensures { Front dst.new src.now (length src.now - 8) }
{
    let last = dst.len() - 8;
    for i in (0..last).step_by(8) {
        copy_eight(dst, src, i);
    }
}

// Copies eight bytes or more but for the last eight.
fn copy_front(dst: &mut [u8], src: &[u8])
    requires { (length dst.old ≡ length src.now) × (8 ≤ length dst.old) }
    ensures { Front dst.new src.now (length src.now - 8) }
{
    let n = dst.len();
    if n <= 64 {
        copy_short(dst, src);
    } else {
        copy_blocks(dst, src);
    }
}

// Copies src over dst, of eight bytes or more. Short and long share the last block: of two the compiler would make one,
// and copy it by bytes.
fn copy_eights(dst: &mut [u8], src: &[u8])
    requires { (length dst.old ≡ length src.now) × (8 ≤ length dst.old) }
    ensures { dst.new ≡ src.now }
{
    let n = dst.len();
    copy_front(dst, src);
    copy_eight(dst, src, n - 8);
}

// Copies src over dst.
pub fn copy(dst: &mut [u8], src: &[u8])
    requires { length dst.old ≡ length src.now }
    ensures { dst.new ≡ src.now }
{
    let n = dst.len();
    if n < 8 {
        copy_bytes(dst, src);
        return;
    }
    if n < LONG {
        copy_eights(dst, src);
    } else {
        copy_bytes(dst, src);
    }
}
