// Where an add or a delete may write, found before the call: the windows of the image to be kept and compared. Of a
// call that will be refused there is none to find.
#![tactic(auto)]

ghost use Rattle.std.specs.Prelude.{◌≡◌, true, ℕ, ◌<◌, length};
ghost use Rattle.spec_file.specs.Bytes.{Bytes};
ghost use Rattle.spec_file.specs.Calls.{add, delete};
ghost use Rattle.spec_file.specs.Image.{layout_of};
ghost use Rattle.spec_file.specs.Questions.{message_sound};
ghost use Rattle.changes_windows.specs.Windows.{Sorted};
ghost use Rattle.header_layout.specs.Shapes.{Open};
ghost use Rattle.table_search.specs.Probes.{probe_of, Within};
ghost use Rattle.table_search.specs.Slots.{offset_in};
ghost use Rattle.changes_extent.specs.Reaches.{Only, Entry, AddOnly, DeleteOnly};

use changes_extent::{of_entry, of_walk};
use changes_windows::Windows;
use header_layout::places::{Offset, Slot};
use header_layout::shape::Shape;
use header_open::mode_known;
use message_read::message_sound;
use table_search::{Found, offset_of};
use table_seek::{Sought, seek};

// No window.
fn none() -> Windows
    ensures { (L : ℕ) → Sorted result L }
{
    Windows {
        end1: 0,
        from2: 0,
        end2: 0,
        from3: 0,
        end3: 0,
        from4: 0,
        end4: 0,
    }
}

// So of a point that is present in slot i; question 11 answered no, there is nothing to find.
fn of_present(image: &[u8], shape: Shape, i: Slot, m: usize) -> Windows
    requires { Open image.now shape × (i.0 < shape.slots) }
    ensures { Sorted result (length image.now)
        × (message_sound (layout_of image.now) image.now (offset_in image.now i.0)
        ≡ true
        → Entry image.now i.0 (offset_in image.now i.0) m result) }
{
    let o = offset_of(image, shape, i);
    if !message_sound(image, shape, o) {
        return none();
    }
    of_entry(image, shape, i, o, m)
}

// So by how the search ended.
fn of_found(image: &[u8], shape: Shape, found: Found, m: usize) -> Windows
    requires { Open image.now shape × Within shape.slots (probe_of found) }
    ensures { Sorted result (length image.now) × AddOnly image.now (probe_of found) m result }
{
    match found {
        Found::Met(slot) => of_present(image, shape, slot, m),
        Found::Empty(slot) => of_entry(image, shape, slot, Offset::new(0), m),
        Found::Exhausted => none(),
    }
}

// Where an add may write.
pub fn of_add(image: &[u8], key: &[u8], bytes: &[u8], mode: u32) -> Windows
    ensures { Sorted result (length image.now)
        × Only (λ (img : Bytes). add img key.now bytes.now mode) image.now result }
{
    let sought = seek(image, key, mode_known(mode));
    match sought {
        Sought::Refused(number) => none(),
        Sought::At(shape, found, read) => of_found(image, shape, found, bytes.len()),
    }
}

// So by how the search ended.
fn of_deleted(image: &[u8], shape: Shape, found: Found) -> Windows
    requires { Open image.now shape × Within shape.slots (probe_of found) }
    ensures { Sorted result (length image.now) × DeleteOnly image.now (probe_of found) result }
{
    let Found::Met(slot) = found else {
        return none();
    };
    let o = offset_of(image, shape, slot);
    if !message_sound(image, shape, o) {
        return none();
    }
    of_walk(image, shape, slot, o)
}

// Where a delete may write.
pub fn of_delete(image: &[u8], key: &[u8]) -> Windows
    ensures { Sorted result (length image.now)
        × Only (λ (img : Bytes). delete img key.now) image.now result }
{
    let sought = seek(image, key, true);
    match sought {
        Sought::Refused(number) => none(),
        Sought::At(shape, found, read) => of_deleted(image, shape, found),
    }
}
