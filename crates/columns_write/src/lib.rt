// The bytes that are stored of records of W bytes, written by blocks of records, column by column within a block: over
// all records at once, the bytes of one column of wide records lie too far apart for the cache. A turn moves bytes of
// four records to adjacent places.
#![tactic(auto)]

ghost use Rattle.std.specs.Prelude.{true, ◌≡◌, length, get_or, set, ◌+◌, ◌*◌, ◌<◌};
ghost use Rattle.spec_columns.specs.Columns.{whole_records, columns};
ghost use Rattle.spec_columns.specs.Places.{Sized, BlockNext, BlockTo, RunTo};

use columns_width::block_end;

// Puts byte j of record r at its place of the columns.
fn write_byte(space: &mut [u8], records: &[u8], width: usize, n: usize, r: usize, j: usize)
    requires { Sized width n records.now space.old × (r < n) × (j < width) }
    ensures { let byte = get_or records.now (r * width + j) 0 in
        space.new ≡ set space.old (1 + j * n + r) byte }
{
    space[1 + j * n + r] = records[r * width + j];
}

// Puts byte j of records from a on, four by four, at its places of the columns; answers the record behind them.
fn write_fours(
    space: &mut [u8],
    records: &[u8],
    width: usize,
    n: usize,
    a: usize,
    e: usize,
    j: usize,
) -> usize
    requires { (j < width) × BlockTo width n records.now space.old a e j }
    ensures { RunTo width n records.now space.new a e j 1 result }
{
    // Not `step_by(4)`: that takes a quarter longer.
    let fours = (e - a) / 4;
    for i in 0..fours {
        let r = a + 4 * i;
        write_byte(space, records, width, n, r, j);
        write_byte(space, records, width, n, r + 1, j);
        write_byte(space, records, width, n, r + 2, j);
        write_byte(space, records, width, n, r + 3, j);
    }
    a + 4 * fours
}

// Puts byte j of the records from a to e at its places of the columns, where the bytes before it are.
fn write_run(space: &mut [u8], records: &[u8], width: usize, n: usize, a: usize, e: usize, j: usize)
    requires { (j < width) × BlockTo width n records.now space.old a e j }
    ensures { BlockTo width n records.now space.new a e (j + 1) }
{
    let rest = write_fours(space, records, width, n, a, e, j);
    for r in rest..e {
        write_byte(space, records, width, n, r, j);
    }
}

// Puts the records from a to e at their places of the columns, where those before them are.
fn write_block(space: &mut [u8], records: &[u8], width: usize, n: usize, a: usize, e: usize)
    requires { BlockNext width n records.now space.old a e }
    ensures { BlockNext width n records.now space.new e e }
{
    for j in 0..width {
        write_run(space, records, width, n, a, e, j);
    }
}

// Writes what is stored of the records: the width, and the columns.
pub fn write_columns(space: &mut [u8], records: &[u8], width: usize)
    requires { whole_records width (length records.now) ≡ true × (length space.old ≡ 1 + length records.now) }
    ensures { space.new ≡ columns width records.now }
{
    let n = records.len() / width;
    let mut a = 0;
    // Not a `for`: `block_end` says where a block ends.
    while a < n {
        let e = block_end(a, n);
        write_block(space, records, width, n, a, e);
        a = e;
    }
    space[0] = width as u8;
}
