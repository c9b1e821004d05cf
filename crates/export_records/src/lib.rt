// Reading records by column as the exports tell it, of one image and of a pair: the answer is the number, and how many
// bytes were filled goes to a number of 32 bits that is lent.
#![tactic(auto)]

ghost use Rattle.export_records.specs.ReadsColumns.{ReadsColumns, PairReadsColumns};

// Fills the slice with the records that are stored under the key; `bytes` is how many bytes it filled, 0 when refused.
pub fn read_columns(image: &[u8], key: &[u8], out: &mut [u8], bytes: &mut u32) -> u32
    ensures { ReadsColumns image.now key.now out.old
        image.now out.new result bytes.new }
{
    let fetched = columns_fetch::read_records(image, key, out);
    *bytes = fetched.bytes as u32;
    fetched.number
}

// The same in growth.
pub fn grow_read_columns(old: &[u8], new: &[u8], key: &[u8], out: &mut [u8], bytes: &mut u32) -> u32
    ensures { PairReadsColumns (record { old = old.entry.now; new = new.now }) key.now
        out.old old.exit.now new.now out.new result bytes.new }
{
    let fetched = call_grow_read::read_pair(old, new, key, out);
    *bytes = fetched.bytes as u32;
    fetched.number
}
