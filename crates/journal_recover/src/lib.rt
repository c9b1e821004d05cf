// The journal: the image written from it, and recovery. One function ends an update and is recovery.
#![tactic(auto)]

ghost use Rattle.std.specs.Prelude.{◌≡◌, true, [], ◌∷◌, ◌+◌, ◌≤◌, ◌<◌, length, take};
ghost use Rattle.spec_file.specs.Bytes.{store};
ghost use Rattle.spec_changes.specs.Journal.{Disk, put, written, all_written, pair_count, mark_place, journal_sound, recover_number, recovered, recoveries};
ghost use Rattle.journal_recover.specs.Updates.{Updates};
ghost use Rattle.journal_recover.specs.Writes.{block_at, next_from, write_at, Reads};

use bytes_words::answers::UNRECOVERABLE;
use bytes_words::fields::read_u32;
use bytes_words::limits::{LENGTHS_START, MARKED, PAIR_SIZE, PAIRS_START};
use changes_bytes::put_part;

// Writes stretch k alone, and is lent no more of the image than that; its new bytes start at `from`. Answers where the
// next one's start.
fn write_stretch(image: &mut [u8], journal: &[u8], k: usize, from: usize) -> usize
    requires { Reads (length image.old) journal.now k from }
    ensures { (image.new ≡ put image.old (block_at journal.now k from))
        × (result ≡ next_from journal.now k from) }
{
    let at = read_u32(journal, PAIRS_START + PAIR_SIZE * k) as usize;
    let size = read_u32(journal, LENGTHS_START + PAIR_SIZE * k) as usize;
    let end = from + size;
    put_part(image, at, journal, from, end);
    end
}

// Takes the mark away.
fn clear_mark(journal: &mut [u8])
    requires { 1 ≤ length journal.old }
    ensures { journal.new ≡ store journal.old (mark_place journal.old) (0 ∷ []) }
{
    let last = journal.len() - 1;
    journal[last] = 0;
}

// Write number k of those that a marked journal asks for, alone: a stretch, for which the image is lent, or the mark
// taken away, for which the journal is. Answers where the next stretch's bytes start.
pub fn write_one(image: &mut [u8], journal: &mut [u8], pairs: usize, k: usize, from: usize) -> usize
    requires { (1 ≤ length journal.old) × (k < pairs → Reads (length image.old) journal.old k from) }
    ensures { Updates
        (written (write_at journal.old pairs k from)
        (record { image = image.entry.now; journal = journal.old }))
        image.exit.now journal.new
        × (k < pairs → result ≡ next_from journal.old k from) }
{
    if k < pairs {
        return write_stretch(image, journal, k, from);
    }
    clear_mark(journal);
    from
}

// Carries out the first n writes that a marked journal asks for: each stretch, then the mark taken away. Before turn k
// the first k are done, and turn k does write k alone; that the loop has no other turns is held by tests/order.sh.
pub fn settle(image: &mut [u8], journal: &mut [u8], pairs: usize, n: usize)
    requires { (journal_sound (length image.old) journal.old ≡ true) × (pairs ≡ pair_count journal.old)
        × (n ≤ pairs + 1) }
    ensures { Updates
        (all_written (take n (recoveries journal.old))
        (record { image = image.entry.now; journal = journal.old }))
        image.exit.now journal.new }
{
    let mut from = PAIRS_START + PAIR_SIZE * pairs;
    for k in 0..n {
        from = write_one(image, journal, pairs, k, from);
    }
}

// Whether a marked journal's content ends before the mark, and its pairs lie in an image of so many bytes, in order.
fn journal_sound(size: usize, journal: &[u8]) -> bool
    ensures { result ≡ journal_sound size journal.now }
{
    let end = journal.len();
    if end < 5 {
        return false;
    }
    let pairs = read_u32(journal, 0) as usize;
    let mut from = PAIRS_START + PAIR_SIZE * pairs;
    if end <= from {
        return false;
    }
    let mut last = 0;
    for i in 0..pairs {
        let at = read_u32(journal, PAIRS_START + PAIR_SIZE * i) as usize;
        let bytes = read_u32(journal, LENGTHS_START + PAIR_SIZE * i) as usize;
        if at < last {
            return false;
        }
        last = at + bytes;
        if size < last {
            return false;
        }
        let room = end - from;
        if room <= bytes {
            return false;
        }
        from += bytes;
    }
    true
}

// Rewrites the image from a journal that is marked, and takes the mark away; where the mark is 0 already it writes
// nothing. Answers 0, or 18 for a journal that is empty or, being marked, not sound, and then changes no byte.
pub fn recover(image: &mut [u8], journal: &mut [u8]) -> u32
    ensures { (result ≡ recover_number (length image.entry.now) journal.old)
        × Updates (recovered (record { image = image.entry.now; journal = journal.old }))
        image.exit.now journal.new }
{
    let end = journal.len();
    if end == 0 {
        return UNRECOVERABLE;
    }
    let last = end - 1;
    if journal[last] == 0 {
        return 0;
    }
    if journal[last] != MARKED {
        journal[last] = 0;
        return 0;
    }
    if !journal_sound(image.len(), journal) {
        return UNRECOVERABLE;
    }
    let pairs = read_u32(journal, 0) as usize;
    settle(image, journal, pairs, pairs + 1);
    0
}
