// A name that still stands in the old image, by reading alone: the number of its point's move, and the call's own on
// the pair as that move would leave it.
#![tactic(auto)]

ghost use Rattle.std.specs.Prelude.{◌≡◌, true, cond, ◌+◌, ◌≤◌, ◌<◌, ◌^◌};
ghost use Rattle.spec_file.specs.Image.{layout_of};
ghost use Rattle.spec_file.specs.Messages.{shown};
ghost use Rattle.spec_file.specs.Questions.{message_sound, first_no, mode_known};
ghost use Rattle.spec_file.specs.Search.{met, search};
ghost use Rattle.spec_moves.specs.Moves.{move_asks};
ghost use Rattle.header_layout.specs.Shapes.{Open};
ghost use Rattle.growth_named.specs.Names.{pair_of, Named, entry_number, Foretold, Points};

use bytes_words::answers::{DAMAGED, NEW, PRESENT, TABLE_FULL};
use bytes_words::fields::read_u32;
use bytes_words::limits::POINTS_FIELD;
use growth_beside::renewed_number;
use header_layout::places::{Offset, Slot};
use header_layout::shape::Shape;
use message_read::{is_active, length_at, message_sound, shown_length};
use message_room::room_number;
use table_search::{Found, offset_of, search};

// Questions 9, 10, 12 and 13 of a move: of the new image, for the message at an offset of the old one.
fn entry_number(old: &[u8], shape: Shape, o: Offset, new: &[u8], larger: Shape, key: &[u8]) -> u32
    requires { Open old.now shape × Open new.now larger
        × (message_sound (layout_of old.now) old.now o.0 ≡ true) }
    ensures { result ≡ entry_number new.now
        (search (layout_of new.now) new.now key.now)
        (shown (layout_of old.now) old.now o.0) }
{
    let probed = search(new, larger, key);
    let found = probed.found;
    match found {
        Found::Met(_) => PRESENT,
        Found::Empty(_) => {
            let slots = larger.slots;
            if slots <= read_u32(new, POINTS_FIELD) as usize {
                return TABLE_FULL;
            }
            if !is_active(old, o) {
                return 0;
            }
            room_number(new, larger, length_at(old, shape, o))
        }
        Found::Exhausted => TABLE_FULL,
    }
}

// The number of the move of the point in a slot of the old image, whose key this is: 11 first.
pub fn move_number(
    old: &[u8],
    shape: Shape,
    new: &[u8],
    larger: Shape,
    key: &[u8],
    slot: Slot,
) -> u32
    requires { Named old.now new.now key.now shape larger slot.0 }
    ensures { result ≡ first_no (move_asks (pair_of old.now new.now) slot.0) }
{
    let o = offset_of(old, shape, slot);
    if !message_sound(old, shape, o) {
        return DAMAGED;
    }
    if read_u32(old, POINTS_FIELD) == 0 {
        return DAMAGED;
    }
    entry_number(old, shape, o, new, larger, key)
}

// The space that a moved message takes, if it is active.
fn moved_space(active: bool, head: usize, length: usize) -> usize
    requires { (head ≤ 5) × (length < 2 ^ 32) }
    ensures { result ≡ cond active (head + length) 0 }
{
    if active {
        return head + length;
    }
    0
}

// The call's own number on the pair after the accepted move of the point in a slot of the old image: it is present,
// with the text that it shows here.
fn foreseen_number(
    old: &[u8],
    shape: Shape,
    new: &[u8],
    larger: Shape,
    key: &[u8],
    slot: Slot,
    m: usize,
    mode: u32,
) -> u32
    requires { Named old.now new.now key.now shape larger slot.0
        × (first_no (move_asks (pair_of old.now new.now) slot.0) ≡ 0)
        × (mode_known mode ≡ true) × (m ≤ 2 ^ 63) }
    ensures { Foretold old.now new.now key.now slot.0 m mode result }
{
    if mode == NEW {
        return PRESENT;
    }
    let o = offset_of(old, shape, slot);
    let active = is_active(old, o);
    let length = shown_length(old, shape, o);
    let moved = moved_space(active, larger.head, length);
    let fits = active & (m <= length);
    renewed_number(old, shape, o, new, larger, moved, fits, length, m, mode)
}

// A name that stands in a slot of the old image: the move's number, then the call's own.
pub fn named_number(
    old: &[u8],
    shape: Shape,
    new: &[u8],
    larger: Shape,
    key: &[u8],
    slot: Slot,
    m: usize,
    mode: u32,
) -> u32
    requires { Named old.now new.now key.now shape larger slot.0
        × (search (layout_of old.now) old.now key.now ≡ met slot.0)
        × (mode_known mode ≡ true) × (m ≤ 2 ^ 63) }
    ensures { Points old.now new.now key.now m mode result }
{
    let number = move_number(old, shape, new, larger, key, slot);
    if number != 0 {
        return number;
    }
    foreseen_number(old, shape, new, larger, key, slot, m, mode)
}
