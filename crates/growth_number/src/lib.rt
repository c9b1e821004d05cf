// The numbers of add, delete and storing on a pair of images, by reading alone: the pair's, those of the name and the
// mode, the named point's move, then the call's own on the pair as that move would leave it.
#![tactic(auto)]

ghost use Rattle.std.specs.Prelude.{◌≡◌, true, ◌≤◌, ◌^◌};
ghost use Rattle.spec_file.specs.Image.{layout_of};
ghost use Rattle.spec_file.specs.Questions.{first_no, mode_known, removed_asks};
ghost use Rattle.spec_file.specs.Search.{search};
ghost use Rattle.spec_growth.specs.Growth.{grow_add_number, grow_delete_number, grow_store_number};
ghost use Rattle.header_layout.specs.Shapes.{Open};
ghost use Rattle.growth_named.specs.Names.{pair_of, Paired, Points};
ghost use Rattle.growth_number.specs.Numbers.{remove_number};

use bytes_words::answers::{ABSENT, BAD_KEY, BAD_MODE, BAD_RECORDS, DAMAGED, REPLACE};
use bytes_words::fields::read_u32;
use bytes_words::limits::POINTS_FIELD;
use columns_width::whole_records;
use growth_beside::own_number;
use growth_named::{move_number, named_number};
use growth_open::pair_number;
use header_layout::shape::{Shape, read_shape};
use header_open::{mode_known, name_allowed};
use message_read::message_sound;
use table_search::{Found, offset_of, search};

// The named move's number, then the call's own, of any m bytes in that mode.
fn point_number(
    old: &[u8],
    shape: Shape,
    new: &[u8],
    larger: Shape,
    key: &[u8],
    m: usize,
    mode: u32,
) -> u32
    requires { Paired old.now new.now key.now shape larger × (mode_known mode ≡ true) × (m ≤ 2 ^ 63) }
    ensures { Points old.now new.now key.now m mode result }
{
    let probed = search(old, shape, key);
    let found = probed.found;
    let Found::Met(slot) = found else {
        return own_number(old, shape, new, larger, key, m, mode);
    };
    named_number(old, shape, new, larger, key, slot, m, mode)
}

// Delete's own number on the new image: 14, then 11.
fn removed_number(new: &[u8], larger: Shape, key: &[u8]) -> u32
    requires { Open new.now larger }
    ensures { result ≡ first_no (removed_asks (layout_of new.now) new.now
        (search (layout_of new.now) new.now key.now)) }
{
    let probed = search(new, larger, key);
    let found = probed.found;
    let Found::Met(slot) = found else {
        return ABSENT;
    };
    let o = offset_of(new, larger, slot);
    if !message_sound(new, larger, o) {
        return DAMAGED;
    }
    if read_u32(new, POINTS_FIELD) == 0 {
        return DAMAGED;
    }
    0
}

// The named move's number; for a name that is not in the old image, delete's own.
fn remove_number(old: &[u8], shape: Shape, new: &[u8], larger: Shape, key: &[u8]) -> u32
    requires { Paired old.now new.now key.now shape larger }
    ensures { result ≡ remove_number old.now new.now key.now }
{
    let probed = search(old, shape, key);
    let found = probed.found;
    let Found::Met(slot) = found else {
        return removed_number(new, larger, key);
    };
    move_number(old, shape, new, larger, key, slot)
}

// Add's number on a pair: 0 where it is accepted.
pub fn add_number(old: &[u8], new: &[u8], key: &[u8], bytes: &[u8], mode: u32) -> u32
    ensures { result ≡ grow_add_number (pair_of old.now new.now) key.now
        bytes.now mode }
{
    let number = pair_number(old, new);
    if number != 0 {
        return number;
    }
    let shape = read_shape(old);
    if !name_allowed(key, shape.keylen) {
        return BAD_KEY;
    }
    if !mode_known(mode) {
        return BAD_MODE;
    }
    let larger = read_shape(new);
    point_number(old, shape, new, larger, key, bytes.len(), mode)
}

// Delete's number on a pair: 0 where it is accepted.
pub fn delete_number(old: &[u8], new: &[u8], key: &[u8]) -> u32
    ensures { result ≡ grow_delete_number (pair_of old.now new.now) key.now }
{
    let number = pair_number(old, new);
    if number != 0 {
        return number;
    }
    let shape = read_shape(old);
    if !name_allowed(key, shape.keylen) {
        return BAD_KEY;
    }
    let larger = read_shape(new);
    remove_number(old, shape, new, larger, key)
}

// Storing's number on a pair: 0 where it is accepted.
pub fn store_number(old: &[u8], new: &[u8], key: &[u8], records: &[u8], width: usize) -> u32
    ensures { result ≡ grow_store_number (pair_of old.now new.now) key.now
        records.now width }
{
    let number = pair_number(old, new);
    if number != 0 {
        return number;
    }
    let shape = read_shape(old);
    if !name_allowed(key, shape.keylen) {
        return BAD_KEY;
    }
    if !whole_records(width, records.len()) {
        return BAD_RECORDS;
    }
    let larger = read_shape(new);
    point_number(old, shape, new, larger, key, 1 + records.len(), REPLACE)
}
