// Add, in its four modes: all questions are put before the first byte is written.
#![tactic(auto)]

ghost use Rattle.std.specs.Prelude.{◌≡◌, true, [], ◌∷◌, ◌+◌, ◌≤◌, length};
ghost use Rattle.spec_file.specs.Calls.{settled, add, add_read};
ghost use Rattle.spec_file.specs.Image.{layout_of};
ghost use Rattle.spec_file.specs.Limits.{major, minor, patch, version_field};
ghost use Rattle.spec_file.specs.Messages.{added_at, noted};
ghost use Rattle.spec_file.specs.Questions.{first_no, point_asks, mode_known};
ghost use Rattle.header_layout.specs.Shapes.{Open};
ghost use Rattle.table_seek.specs.Seeks.{SoughtIs};
ghost use Rattle.table_search.specs.Probes.{probe_of, Within, MetKey};

use bytes_words::answers::{NEW, REPLACE};
use bytes_words::limits::{MAJOR, MINOR, PATCH, VERSION_FIELD, WIDE_MAJOR};
use call_add_absent::add_absent;
use call_add_present::add_present;
use header_layout::shape::Shape;
use header_open::mode_known;
use table_search::Found;
use table_seek::{Sought, Told, seek, slots_read};

// Writes the version bytes 1, 0, 2.
fn write_version(part: &mut [u8])
    requires { length part.old ≡ 3 }
    ensures { part.new ≡ major ∷ minor ∷ patch ∷ [] }
{
    part[0] = MAJOR;
    part[1] = MINOR;
    part[2] = PATCH;
}

// An empty message, that is no bytes in mode 1 or 2, makes the file's version 1.0.2, where it is not 2.0.
fn note_version(image: &mut [u8], bytes: &[u8], mode: u32)
    requires { version_field + 3 ≤ length image.old }
    ensures { image.new ≡ noted bytes.now mode image.old }
{
    if (bytes.len() == 0)
        & ((mode == NEW) | (mode == REPLACE))
        & (image[VERSION_FIELD] != WIDE_MAJOR)
    {
        write_version(&mut image[VERSION_FIELD..VERSION_FIELD + 3]);
    }
}

// Add of the point for which the search ended so: 14 for mode 4, questions 9 to 13, then its effect on the point.
fn put_found(
    image: &mut [u8],
    shape: Shape,
    found: Found,
    key: &[u8],
    bytes: &[u8],
    mode: u32,
) -> u32
    requires { Open image.old shape × Within shape.slots (probe_of found)
        × MetKey image.old key.now (probe_of found)
        × (length key.now ≡ shape.keylen) × (mode_known mode ≡ true) }
    ensures { (result ≡ first_no (point_asks (layout_of image.old) image.old (probe_of found)
        bytes.now mode))
        × (image.new
        ≡ settled result image.old
        (added_at (layout_of image.old) image.old (probe_of found) key.now
        bytes.now mode)) }
{
    let Found::Met(slot) = found else {
        return add_absent(image, shape, found, key, bytes, mode);
    };
    add_present(image, shape, slot, bytes, mode)
}

// The same, and the version where the message that is stored is empty.
fn add_found(
    image: &mut [u8],
    shape: Shape,
    found: Found,
    key: &[u8],
    bytes: &[u8],
    mode: u32,
) -> u32
    requires { Open image.old shape × Within shape.slots (probe_of found)
        × MetKey image.old key.now (probe_of found)
        × (length key.now ≡ shape.keylen) × (mode_known mode ≡ true) }
    ensures { (result ≡ first_no (point_asks (layout_of image.old) image.old (probe_of found)
        bytes.now mode))
        × (image.new
        ≡ settled result image.old
        (noted bytes.now mode
        (added_at (layout_of image.old) image.old (probe_of found) key.now
        bytes.now mode))) }
{
    let number = put_found(image, shape, found, key, bytes, mode);
    if number != 0 {
        return number;
    }
    note_version(image, bytes, mode);
    0
}

// Add of a point for which `seek` answered so.
fn add_sought(image: &mut [u8], key: &[u8], bytes: &[u8], mode: u32, sought: Sought) -> u32
    requires { SoughtIs image.old key.now (mode_known mode) sought }
    ensures { (result ≡ (add image.old key.now bytes.now mode).answer.number)
        × (image.new ≡ (add image.old key.now bytes.now mode).after) }
{
    match sought {
        Sought::Refused(number) => number,
        Sought::At(shape, found, _) => add_found(image, shape, found, key, bytes, mode),
    }
}

// Stores the bytes as `add` does, and answers how many slots its search read too.
pub fn add_slots(image: &mut [u8], key: &[u8], bytes: &[u8], mode: u32) -> Told
    ensures { (result.number ≡ (add image.old key.now bytes.now mode).answer.number)
        × (image.new ≡ (add image.old key.now bytes.now mode).after)
        × (result.read ≡ add_read image.old key.now mode) }
{
    let known = mode_known(mode);
    let sought = seek(image, key, known);
    let read = slots_read(sought);
    let number = add_sought(image, key, bytes, mode, sought);
    Told { number, read }
}

// Stores the bytes under the key: mode 1 for a key that is absent only, 2 replaces its message, 3 appends to it, 4
// withdraws it, whatever the bytes.
// Answers 0; or the number of the first question answered no, and then changes no byte.
pub fn add(image: &mut [u8], key: &[u8], bytes: &[u8], mode: u32) -> u32
    ensures { (result ≡ (add image.old key.now bytes.now mode).answer.number)
        × (image.new ≡ (add image.old key.now bytes.now mode).after) }
{
    let sought = seek(image, key, mode_known(mode));
    add_sought(image, key, bytes, mode, sought)
}
