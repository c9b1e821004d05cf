// The records read from what is stored of them, by blocks of records, column by column within a block: over all records
// at once, the columns that one record's bytes come from lie too far apart for the cache. A turn moves four bytes of
// one record to adjacent places.
#![tactic(auto)]

ghost use Rattle.std.specs.Prelude.{true, ◌≡◌, length, get_or, set, ◌+◌, ◌*◌, ◌≤◌, ◌<◌};
ghost use Rattle.spec_columns.specs.Columns.{whole_columns, records};
ghost use Rattle.spec_columns.specs.Places.{Sized, BlockNext, BlockTo};

use columns_width::{block_end, width_of};

// Puts byte j of record r at its place of the records.
fn read_byte(out: &mut [u8], stored: &[u8], width: usize, n: usize, r: usize, j: usize)
    requires { Sized width n out.old stored.now × (r < n) × (j < width) }
    ensures { let byte = get_or stored.now (1 + j * n + r) 0 in
        out.new ≡ set out.old (r * width + j) byte }
{
    out[r * width + j] = stored[1 + j * n + r];
}

// Puts four bytes, from byte j on, of the records from a to e at their places, where the bytes before them are.
fn read_four(out: &mut [u8], stored: &[u8], width: usize, n: usize, a: usize, e: usize, j: usize)
    requires { (j + 4 ≤ width) × BlockTo width n out.old stored.now a e j }
    ensures { BlockTo width n out.new stored.now a e (j + 4) }
{
    for r in a..e {
        read_byte(out, stored, width, n, r, j);
        read_byte(out, stored, width, n, r, j + 1);
        read_byte(out, stored, width, n, r, j + 2);
        read_byte(out, stored, width, n, r, j + 3);
    }
}

// Puts byte j of the records from a to e at its places, where the bytes before it are.
fn read_one(out: &mut [u8], stored: &[u8], width: usize, n: usize, a: usize, e: usize, j: usize)
    requires { (j < width) × BlockTo width n out.old stored.now a e j }
    ensures { BlockTo width n out.new stored.now a e (j + 1) }
{
    for r in a..e {
        read_byte(out, stored, width, n, r, j);
    }
}

// Puts bytes of the records from a to e, four by four, at their places; answers the byte behind them.
fn read_fours(out: &mut [u8], stored: &[u8], width: usize, n: usize, a: usize, e: usize) -> usize
    requires { BlockNext width n out.old stored.now a e }
    ensures { (result ≤ width) × BlockTo width n out.new stored.now a e result }
{
    // Not `step_by(4)`, nor a count of fours: records of 1 and of 5 to 7 bytes then take 5 to 25 per cent longer.
    let mut j = 0;
    while 4 <= width - j {
        read_four(out, stored, width, n, a, e, j);
        j += 4;
    }
    j
}

// Puts the records from a to e at their places, where those before them are.
fn read_block(out: &mut [u8], stored: &[u8], width: usize, n: usize, a: usize, e: usize)
    requires { BlockNext width n out.old stored.now a e }
    ensures { BlockNext width n out.new stored.now e e }
{
    let rest = read_fours(out, stored, width, n, a, e);
    for j in rest..width {
        read_one(out, stored, width, n, a, e, j);
    }
}

// Reads the records from what is stored of them.
pub fn read_columns(out: &mut [u8], stored: &[u8])
    requires { whole_columns stored.now ≡ true × (length stored.now ≡ 1 + length out.old) }
    ensures { out.new ≡ records stored.now }
{
    let width = width_of(stored);
    let n = out.len() / width;
    let mut a = 0;
    // Not a `for`: `block_end` says where a block ends.
    while a < n {
        let e = block_end(a, n);
        read_block(out, stored, width, n, a, e);
        a = e;
    }
}
