// Add and delete in the form that a cut does not harm: the call is made on a copy of the image in a working slice, and
// its result is written to the image by way of a journal.
//     packed    compaction in this form
#![tactic(auto)]

pub mod packed;

ghost use Rattle.std.specs.Prelude.{◌≡◌, ℕ, ◌<◌, ◌^◌, length};
ghost use Rattle.std.specs.Fn.{FnOnceReturnsAtMut};
ghost use Rattle.spec_file.specs.Bytes.{Bytes};
ghost use Rattle.spec_file.specs.Calls.{Outcome, add, delete};
ghost use Rattle.spec_changes.specs.Journals.{Journals};

use bytes_words::answers::SHORT_SLICE;
use call_add::add;
use call_delete::delete;
use changes_bytes::put_part;
use journal_commit::update;

// A call by way of the journal, of whatever outcome the call is on the image.
fn journaled<F: FnOnce(&mut [u8]) -> u32>(
    image: &mut [u8],
    work: &mut [u8],
    journal: &mut [u8],
    call: F,
) -> u32
    requires callable { F.IsAlwaysCallable call }
    requires small { (number : ℕ) (after : Bytes) → FnOnceReturnsAtMut F.FnOnce call image.old number after
        → number ≡ 0 → length image.old < 2 ^ 32 }
    ensures { (outcome : Bytes → Outcome Bytes)
        → ((number : ℕ) (after : Bytes) → FnOnceReturnsAtMut F.FnOnce call image.old number after
        → (number ≡ (outcome image.old).answer.number) × (after ≡ (outcome image.old).after))
        → Journals outcome
        image.old (length work.old) journal.old
        image.new journal.new result }
{
    let size = image.len();
    if work.len() < size {
        return SHORT_SLICE;
    }
    put_part(work, 0, image, 0, size);
    let number = call(&mut work[0..size]);
    if number != 0 {
        return number;
    }
    update(image, &work[0..size], journal)
}

// Add by way of the journal.
pub fn add_journaled(
    image: &mut [u8],
    key: &[u8],
    bytes: &[u8],
    mode: u32,
    work: &mut [u8],
    journal: &mut [u8],
) -> u32
    ensures { Journals (λ (img : Bytes). add img key.now bytes.now mode)
        image.old (length work.old) journal.old
        image.new journal.new result }
{
    journaled(image, work, journal, |copy| add(copy, key, bytes, mode))
}

// Delete by way of the journal.
pub fn delete_journaled(image: &mut [u8], key: &[u8], work: &mut [u8], journal: &mut [u8]) -> u32
    ensures { Journals (λ (img : Bytes). delete img key.now)
        image.old (length work.old) journal.old
        image.new journal.new result }
{
    journaled(image, work, journal, |copy| delete(copy, key))
}
