// An update by way of the journal: content, mark, and what the marked journal asks for.
#![tactic(auto)]

ghost use Rattle.std.specs.Prelude.{◌≡◌, true, cond, [], ◌∷◌, ◌+◌, ◌-◌, ◌≤◌, ◌<◌, ◌^◌, length, take};
ghost use Rattle.spec_file.specs.Bytes.{store};
ghost use Rattle.spec_file.specs.Calls.{settled};
ghost use Rattle.spec_changes.specs.Changes.{runs};
ghost use Rattle.spec_changes.specs.Journal.{content, journal_allowed, mark_place, marked, Disk, written, all_written, updates};
ghost use Rattle.journal_recover.specs.Updates.{Updates};
ghost use Rattle.journal_recover.specs.Writes.{next_from, write_number, Numbered};

use bytes_words::answers::BAD_JOURNAL;
use bytes_words::fields::write_u32;
use bytes_words::limits::{MARKED, PAIR_SIZE, PAIRS_START};
use changes_bytes::{measure, write_bytes, write_pairs};
use journal_recover::write_one;

// Writes an update's content to the journal's start: the count, the pairs, the new bytes.
fn write_content(journal: &mut [u8], old: &[u8], new: &[u8], pairs: usize)
    requires { (length old.now ≡ length new.now)
        × (length old.now < 2 ^ 32)
        × (pairs ≡ length (runs 0 old.now new.now))
        × (length (content (runs 0 old.now new.now) new.now) ≤ length journal.old) }
    ensures { journal.new
        ≡ store journal.old 0 (content (runs 0 old.now new.now) new.now) }
{
    write_u32(journal, 0, pairs as u32);
    write_pairs(journal, PAIRS_START, old, new);
    write_bytes(journal, PAIRS_START + PAIR_SIZE * pairs, old, new);
}

// Sets the mark.
fn set_mark(journal: &mut [u8])
    requires { 1 ≤ length journal.old }
    ensures { journal.new
        ≡ store journal.old (mark_place journal.old) (marked ∷ []) }
{
    let last = journal.len() - 1;
    journal[last] = MARKED;
}

// Write number k of an update, alone: content, mark, and what the marked journal asks for. Content and mark are lent
// the journal, a stretch the image. `from` is where the next stretch's bytes start.
fn write_number(
    image: &mut [u8],
    new: &[u8],
    journal: &mut [u8],
    pairs: usize,
    k: usize,
    from: usize,
) -> usize
    requires { Numbered image.old new.now journal.old pairs k from }
    ensures { Updates
        (written (write_number image.entry.now new.now journal.old pairs k from)
        (record { image = image.entry.now; journal = journal.old }))
        image.exit.now journal.new
        × (k < 2 → result ≡ from)
        × (2 ≤ k → k - 2 < pairs → result ≡ next_from journal.old (k - 2) from) }
{
    if k == 0 {
        write_content(journal, image, new, pairs);
        return from;
    }
    if k == 1 {
        set_mark(journal);
        return from;
    }
    write_one(image, journal, pairs, k - 2, from)
}

// Carries out the first n writes of an update. Before turn k the first k are done, and turn k does write k alone; that
// the loop has no other turns is held by tests/order.sh. The calls have it carry out all.
fn carry_out(image: &mut [u8], new: &[u8], journal: &mut [u8], pairs: usize, n: usize)
    requires { (length image.old ≡ length new.now)
        × (length image.old < 2 ^ 32)
        × (pairs ≡ length (runs 0 image.old new.now))
        × (journal_allowed image.old new.now journal.old ≡ true)
        × (n ≤ pairs + 3) }
    ensures { Updates
        (all_written (take n (updates image.entry.now new.now journal.old))
        (record { image = image.entry.now; journal = journal.old }))
        image.exit.now journal.new }
{
    let mut from = PAIRS_START + PAIR_SIZE * pairs;
    for k in 0..n {
        from = write_number(image, new, journal, pairs, k, from);
    }
}

// Makes the image new by way of the journal. Answers 0; or 17, and then changes no byte.
pub fn update(image: &mut [u8], new: &[u8], journal: &mut [u8]) -> u32
    requires { (length image.old ≡ length new.now) × (length image.old < 2 ^ 32) }
    ensures { (result ≡ cond (journal_allowed image.entry.now new.now journal.old) 0 17)
        × (image.exit.now ≡ settled result image.entry.now new.now)
        × (journal.new
        ≡ settled result journal.old
        (all_written (updates image.entry.now new.now journal.old)
        (record { image = image.entry.now; journal = journal.old })).journal) }
{
    let tally = measure(image, new);
    let pairs = tally.pairs;
    let bytes = tally.bytes;
    let end = journal.len();
    let content = PAIRS_START + PAIR_SIZE * pairs + bytes;
    if end <= content {
        return BAD_JOURNAL;
    }
    let last = end - 1;
    if journal[last] != 0 {
        return BAD_JOURNAL;
    }
    carry_out(image, new, journal, pairs, pairs + 3);
    0
}
