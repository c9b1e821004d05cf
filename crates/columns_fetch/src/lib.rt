// Reading records that are stored by column: the call, on any image bytes.
#![tactic(auto)]

ghost use Rattle.std.specs.Prelude.{◌≡◌};
ghost use Rattle.spec_records.specs.Records.{Reads};
ghost use Rattle.columns_fetch.specs.Fills.{Fills};

use bytes_words::answers::BAD_RECORDS;
use call_lookup::locate;
use columns_read::read_columns;
use columns_width::whole_columns;

// What a reading answers: the number of the first question answered no, 0 where there is none; and how many bytes of
// the lent slice it filled, 0 beside such a number.
#[derive(Clone, Copy)]
pub struct Fetched {
    pub number: u32,
    pub bytes: usize,
}

// A refusal's answer.
pub fn refused(number: u32) -> Fetched
    ensures { (result.number ≡ number) × (result.bytes ≡ 0) }
{
    Fetched { number, bytes: 0 }
}

// Fills the front of the slice with the records that are stored; 19 where no whole columns are, or it is too short.
pub fn fill(out: &mut [u8], stored: &[u8]) -> Fetched
    ensures { Fills stored.now out.old out.new result.number result.bytes }
{
    if !whole_columns(stored) {
        return refused(BAD_RECORDS);
    }
    let bytes = stored.len() - 1;
    if out.len() < bytes {
        return refused(BAD_RECORDS);
    }
    read_columns(&mut out[0..bytes], stored);
    Fetched { number: 0, bytes }
}

// Fills the slice with the records that are stored under the key. Answers the number of the first question answered no,
// and then leaves the slice as it was; else 0, and how many bytes it filled: those after them stay.
pub fn read_records(image: &[u8], key: &[u8], out: &mut [u8]) -> Fetched
    ensures { Reads image.now key.now out.old out.new
        result.number result.bytes }
{
    let found = locate(image, key);
    let number = found.number;
    if number != 0 {
        return refused(number);
    }
    let start = found.start.at();
    let end = start + found.length;
    fill(out, &image[start..end])
}
