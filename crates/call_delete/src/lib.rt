// Delete: a point's message becomes inactive, C falls by 1, and the gap in the table is closed.
#![tactic(auto)]

ghost use Rattle.std.specs.Prelude.{◌≡◌, true, ◌≤◌, ◌<◌};
ghost use Rattle.spec_file.specs.Limits.{points_field};
ghost use Rattle.spec_file.specs.Calls.{settled, delete, delete_read};
ghost use Rattle.spec_file.specs.Image.{field, layout_of, slot, offset_of};
ghost use Rattle.spec_file.specs.Delete.{deleted_at, deleted};
ghost use Rattle.spec_file.specs.Questions.{message_sound, first_no, removed_asks};
ghost use Rattle.header_layout.specs.Shapes.{Open};
ghost use Rattle.table_seek.specs.Seeks.{SoughtIs};
ghost use Rattle.table_search.specs.Probes.{probe_of, Within};

use bytes_words::answers::{ABSENT, DAMAGED};
use bytes_words::fields::{read_u32, write_u32};
use bytes_words::limits::POINTS_FIELD;
use header_layout::places::{Offset, Slot};
use header_layout::shape::Shape;
use message_read::message_sound;
use message_write::retire;
use table_close::close;
use table_search::{Found, offset_of};
use table_seek::{Sought, Told, seek, slots_read};

// Takes the point of slot i out, of message offset o, from an image that holds so many points.
pub fn remove(image: &mut [u8], shape: Shape, i: Slot, o: Offset, points: u32)
    requires { Open image.old shape
        × (i.0 < shape.slots)
        × (o.0 ≡ offset_of (layout_of image.old) (slot (layout_of image.old) image.old i.0))
        × (message_sound (layout_of image.old) image.old o.0 ≡ true)
        × (points ≡ field image.old points_field)
        × (1 ≤ points) }
    ensures { image.new ≡ deleted_at (layout_of image.old) image.old i.0 }
{
    retire(image, o);
    write_u32(image, POINTS_FIELD, points - 1);
    close(image, shape, i);
}

// Deletes the point for which the search ended so: questions 14 and 11, then the point goes.
fn delete_found(image: &mut [u8], shape: Shape, found: Found) -> u32
    requires { Open image.old shape × Within shape.slots (probe_of found) }
    ensures { (result ≡ first_no (removed_asks (layout_of image.old) image.old (probe_of found)))
        × (image.new
        ≡ settled result image.old
        (deleted (layout_of image.old) image.old (probe_of found))) }
{
    let Found::Met(slot) = found else {
        return ABSENT;
    };
    let o = offset_of(image, shape, slot);
    if !message_sound(image, shape, o) {
        return DAMAGED;
    }
    let points = read_u32(image, POINTS_FIELD);
    if points == 0 {
        return DAMAGED;
    }
    remove(image, shape, slot, o, points);
    0
}

// Deletes the key's point, for which `seek` answered so.
fn delete_sought(image: &mut [u8], key: &[u8], sought: Sought) -> u32
    requires { SoughtIs image.old key.now true sought }
    ensures { (result ≡ (delete image.old key.now).answer.number)
        × (image.new ≡ (delete image.old key.now).after) }
{
    match sought {
        Sought::Refused(number) => number,
        Sought::At(shape, found, _) => delete_found(image, shape, found),
    }
}

// Deletes the key's point, and answers how many slots its search read too. The walk that closes the gap is not counted.
pub fn delete_slots(image: &mut [u8], key: &[u8]) -> Told
    ensures { (result.number ≡ (delete image.old key.now).answer.number)
        × (image.new ≡ (delete image.old key.now).after)
        × (result.read ≡ delete_read image.old key.now) }
{
    let sought = seek(image, key, true);
    let read = slots_read(sought);
    let number = delete_sought(image, key, sought);
    Told { number, read }
}

// Deletes the key's point. Answers 0; or the number of the first question answered no, and then changes no byte.
pub fn delete(image: &mut [u8], key: &[u8]) -> u32
    ensures { (result ≡ (delete image.old key.now).answer.number)
        × (image.new ≡ (delete image.old key.now).after) }
{
    let sought = seek(image, key, true);
    delete_sought(image, key, sought)
}
