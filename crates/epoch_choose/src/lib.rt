// The entry of a prism with the largest epoch at most t, the lowest slot if two: one pass over the table, in which the
// largest epoch so far and its slot are kept. Nearly all slots are another prism's, and four bytes of a key tell that.
//     choose   its slot and its epoch
#![tactic(auto)]

ghost use Rattle.std.specs.Prelude.{◌≡◌, ◌≤◌, length, take};
ghost use Rattle.spec_file.specs.Bytes.{same};
ghost use Rattle.spec_file.specs.Image.{layout_of};
ghost use Rattle.spec_epoch.specs.Epochs.{epoch_size, epoch_of, eligible};
ghost use Rattle.epoch_choose.specs.Marks.{Marks, Told, Named, SlotAt};
ghost use Rattle.epoch_choose.specs.Choices.{kept_of, Looking, Looked, Chooses};

use bytes_compare::{all_zero, same_bytes, tail};
use bytes_words::fields::read_u32;
use header_layout::places::Slot;
use header_layout::shape::Shape;
use table_search::{Found, key_of};

// Four bytes of a prism's name by which other prisms are told, and where they end; 0 bytes of a name below four.
#[derive(Clone, Copy)]
pub struct Mark {
    pub end: usize,
    pub block: u32,
}

// The slot that is chosen, as a search ends, and its epoch, 0 where there is none.
#[derive(Clone, Copy)]
pub struct Chosen {
    pub found: Found,
    pub epoch: u32,
}

// How many bytes a name has up to the last that is not zero, but no fewer than four: names are often filled up with
// zeros, and differ in the end.
fn filled(name: &[u8]) -> usize
    ensures { result ≤ length name.now }
{
    let size = name.len();
    for i in (4..size).rev() {
        if name[i] != 0 {
            return i + 1;
        }
    }
    size.min(4)
}

// The last four bytes of a name, zeros after it aside.
fn mark_of(name: &[u8]) -> Mark
    ensures { Marks name.now result }
{
    let end = filled(name);
    if end < 4 {
        return Mark { end, block: 0 };
    }
    let block = tail(&name[..end]);
    Mark { end, block }
}

// Whether a key begins with the name.
fn is_named(key: &[u8], name: &[u8], mark: Mark) -> bool
    requires { Told key.now name.now mark }
    ensures { result ≡ same (take (length name.now) key.now) name.now }
{
    let end = mark.end;
    if 4 <= end {
        if tail(&key[..end]) != mark.block {
            return false;
        }
    }
    let size = name.len();
    same_bytes(&key[..size], name)
}

// The epoch of a key: its last four bytes.
fn epoch_of(key: &[u8]) -> u32
    requires { epoch_size ≤ length key.now }
    ensures { result ≡ epoch_of (length key.now) key.now }
{
    let end = key.len();
    read_u32(key, end - 4)
}

// Whether slot i holds an entry of the name with an epoch at most t.
fn is_eligible(image: &[u8], shape: Shape, name: &[u8], mark: Mark, t: u32, i: Slot) -> bool
    requires { SlotAt image.now shape name.now mark i.0 }
    ensures { result ≡ eligible (layout_of image.now) image.now name.now t i.0 }
{
    let key = key_of(image, shape, i);
    if !is_named(key, name, mark) {
        return false;
    }
    if t < epoch_of(key) {
        return false;
    }
    !all_zero(key)
}

// The best so far, or slot i if its epoch is larger.
fn later(best: Chosen, i: Slot, epoch: u32) -> Chosen
    ensures { result ≡ kept_of best i epoch }
{
    let found = best.found;
    let Found::Met(slot) = found else {
        return Chosen {
            found: Found::Met(i),
            epoch,
        };
    };
    if epoch <= best.epoch {
        return best;
    }
    Chosen {
        found: Found::Met(i),
        epoch,
    }
}

// Slot i is looked at.
fn look(
    image: &[u8],
    shape: Shape,
    name: &[u8],
    mark: Mark,
    t: u32,
    i: Slot,
    best: Chosen,
) -> Chosen
    requires { Looking image.now shape name.now mark i.0 best }
    ensures { Looked image.now name.now t i.0 best result }
{
    if !is_eligible(image, shape, name, mark, t, i) {
        return best;
    }
    later(best, i, epoch_of(key_of(image, shape, i)))
}

// The slot of the entry of the name with the largest epoch at most t.
pub fn choose(image: &[u8], shape: Shape, name: &[u8], t: u32) -> Chosen
    requires { Named image.now shape name.now }
    ensures { Chooses image.now name.now t result }
{
    let mark = mark_of(name);
    let mut best = Chosen {
        found: Found::Exhausted,
        epoch: 0,
    };
    for i in 0..shape.slots {
        best = look(image, shape, name, mark, t, Slot::new(i), best);
    }
    best
}
