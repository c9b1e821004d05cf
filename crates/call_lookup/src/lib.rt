// Lookup and count.
//     count    the number of points held
//     locate   where a point's active message stands, as numbers; locate_slots, with how many slots the search read
//     lookup   the message as a part of the lent image
#![tactic(auto)]

ghost use Rattle.std.specs.Prelude.{◌≡◌, length};
ghost use Rattle.spec_file.specs.Calls.{lookup, lookup_start, lookup_length, lookup_read, count};
ghost use Rattle.spec_file.specs.Image.{layout_of};
ghost use Rattle.spec_file.specs.Messages.{bytes_of, is_text};
ghost use Rattle.spec_file.specs.Questions.{lookup_number};
ghost use Rattle.header_layout.specs.Shapes.{Open};
ghost use Rattle.table_search.specs.Probes.{probe_of, Within};
ghost use Rattle.call_lookup.specs.Shown.{Shows};

use bytes_words::answers::{ABSENT, DAMAGED};
use bytes_words::fields::read_u32;
use bytes_words::limits::POINTS_FIELD;
use header_layout::places::Offset;
use header_layout::shape::Shape;
use header_open::open_number;
use message_read::{is_active, length_at, message_sound, text_start};
use table_search::{Found, offset_of};
use table_seek::{Sought, seek};

// What count answers: the number of the first question answered no, 0 where there is none; and the points held.
#[derive(Clone, Copy)]
pub struct Counted {
    pub number: u32,
    pub points: u32,
}

// What lookup answers, as numbers: where the message's text begins and how long it is, both 0 with no active message.
#[derive(Clone, Copy)]
pub struct Located {
    pub number: u32,
    pub start: Offset,
    pub length: usize,
}

// The same, and how many slots the search read, 0 where a question before it was answered no.
#[derive(Clone, Copy)]
pub struct Looked {
    pub located: Located,
    pub read: usize,
}

// The number of points held; 0 beside the number when refused.
pub fn count(image: &[u8]) -> Counted
    ensures { (result.number ≡ (count image.now).answer.number)
        × (result.points ≡ (count image.now).answer.amount) }
{
    let number = open_number(image);
    if number != 0 {
        return Counted { number, points: 0 };
    }
    let points = read_u32(image, POINTS_FIELD);
    Counted { number: 0, points }
}

// An answer that shows no message.
pub fn nothing(number: u32) -> Located
    ensures { (result.number ≡ number) × (result.start.0 ≡ 0) × (result.length ≡ 0) }
{
    let start = Offset::new(0);
    Located {
        number,
        start,
        length: 0,
    }
}

// Where the active message of the point stands for which the search ended so: questions 14 and 11.
pub fn locate_found(image: &[u8], shape: Shape, found: Found) -> Located
    requires { Open image.now shape × Within shape.slots (probe_of found) }
    ensures { Shows (layout_of image.now) image.now (probe_of found)
        result.number result.start.0 result.length }
{
    let Found::Met(slot) = found else {
        return nothing(ABSENT);
    };
    let o = offset_of(image, shape, slot);
    if !message_sound(image, shape, o) {
        return nothing(DAMAGED);
    }
    if !is_active(image, o) {
        return nothing(0);
    }
    let start = text_start(shape, o);
    let length = length_at(image, shape, o);
    Located {
        number: 0,
        start,
        length,
    }
}

// Where the active message of the key's point stands, and how many slots its search read.
pub fn locate_slots(image: &[u8], key: &[u8]) -> Looked
    ensures { (result.located.number ≡ lookup_number image.now key.now)
        × (result.located.start.0 ≡ lookup_start image.now key.now)
        × (result.located.length ≡ lookup_length image.now key.now)
        × (result.read ≡ lookup_read image.now key.now) }
{
    let sought = seek(image, key, true);
    match sought {
        Sought::Refused(number) => {
            let located = nothing(number);
            Looked { located, read: 0 }
        }
        Sought::At(shape, found, read) => {
            let located = locate_found(image, shape, found);
            Looked { located, read }
        }
    }
}

// Where the active message of the key's point stands.
pub fn locate(image: &[u8], key: &[u8]) -> Located
    ensures { (result.number ≡ lookup_number image.now key.now)
        × (result.start.0 ≡ lookup_start image.now key.now)
        × (result.length ≡ lookup_length image.now key.now) }
{
    let looked = locate_slots(image, key);
    looked.located
}

// The active message of the key's point, as a part of the image: its first 0 bytes where there is none or when refused,
// and then `shown` is false, which tells no message from an empty one.
pub fn lookup<'a>(image: &'a [u8], key: &[u8], number: &mut u32, shown: &mut bool) -> &'a [u8]
    ensures { (number.new ≡ (lookup image.now key.now).answer.number)
        × (shown.new ≡ is_text (lookup image.now key.now).answer.text)
        × (result.now ≡ bytes_of (lookup image.now key.now).answer.text)
        × (length result.now ≡ (lookup image.now key.now).answer.amount) }
{
    let found = locate(image, key);
    *number = found.number;
    let start = found.start.at();
    *shown = start != 0;
    let end = start + found.length;
    &image[start..end]
}
