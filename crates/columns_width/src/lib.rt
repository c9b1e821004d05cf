// The width of records that are stored by column, the test of whole records, and where a block of them ends.
#![tactic(auto)]

ghost use Rattle.std.specs.Prelude.{◌≡◌, ◌≤◌, ◌<◌};
ghost use Rattle.spec_columns.specs.Columns.{width_of, whole_records, whole_columns};

const MOST_WIDTH: usize = 64;

// Records in a block, of the widest 16 KiB.
const BLOCK: usize = 256;

// The width of the records that are stored, 0 where nothing is.
pub fn width_of(stored: &[u8]) -> usize
    ensures { result ≡ width_of stored.now }
{
    if stored.len() == 0 {
        return 0;
    }
    stored[0] as usize
}

// Whether m bytes are records of that width, from 1 to 64.
pub fn whole_records(width: usize, m: usize) -> bool
    ensures { result ≡ whole_records width m }
{
    if width < 1 {
        return false;
    }
    (width <= MOST_WIDTH) & (m % width == 0)
}

// Whether what is stored are the columns of such records.
pub fn whole_columns(stored: &[u8]) -> bool
    ensures { result ≡ whole_columns stored.now }
{
    let end = stored.len();
    if end == 0 {
        return false;
    }
    whole_records(width_of(stored), end - 1)
}

// Where the block of records that begins at a ends, of n records.
pub fn block_end(a: usize, n: usize) -> usize
    requires { a < n }
    ensures { (a < result) × (result ≤ n) }
{
    if n - a < BLOCK {
        return n;
    }
    a + BLOCK
}
