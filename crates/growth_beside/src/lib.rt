// The call's own questions 14 and 9 to 13 on the new image, with the points and the space of both images. Nothing is
// written. The old image's space is reckoned, by a pass over its table, only where the call takes new space and
// neither 12 nor the new image's own space already refuses it.
#![tactic(auto)]

ghost use Rattle.std.specs.Prelude.{◌≡◌, true, false, ◌≤◌, ◌<◌, ◌^◌, length};
ghost use Rattle.std.proofs.Math.Option.{some};
ghost use Rattle.spec_file.specs.Bytes.{Bytes};
ghost use Rattle.spec_file.specs.Image.{layout_of};
ghost use Rattle.spec_file.specs.Questions.{message_sound, first_no, mode_known};
ghost use Rattle.spec_file.specs.Search.{met, is_met};
ghost use Rattle.spec_growth.specs.Growth.{own_asks};
ghost use Rattle.header_layout.specs.Shapes.{Open};
ghost use Rattle.table_search.specs.Probes.{probe_of};
ghost use Rattle.growth_beside.specs.Rooms.{place_of, room_at, Besides, renewed_number};

use bytes_words::answers::{
    ABSENT, APPEND, DAMAGED, NEW, NO_ROOM, PRESENT, REPLACE, TABLE_FULL, TOO_LONG, WITHDRAW,
};
use bytes_words::fields::read_u32;
use bytes_words::limits::{FREE_FIELD, POINTS_FIELD};
use growth_space::active_space;
use header_layout::places::{Offset, Slot};
use header_layout::shape::{Shape, most_length};
use message_read::{holds, message_sound, shown_length};
use table_search::{Found, offset_of, search};

// The number of the first no of questions 12 and 13, of any text of m bytes, where the message at `named` of the old
// image is to be moved, which takes so much of the new one's space.
fn room_beside(
    old: &[u8],
    shape: Shape,
    named: Offset,
    new: &[u8],
    larger: Shape,
    moved: usize,
    m: usize,
) -> u32
    requires { Open old.now shape × Open new.now larger
        × (message_sound (layout_of old.now) old.now named.0 ≡ true) × (moved < 2 ^ 33) }
    ensures { (t : Bytes) → length t ≡ m
        → result ≡ room_at (place_of old.now new.now named.0 moved) (layout_of new.now)
        (length new.now) (some t) }
{
    if most_length(larger.head) < m {
        return TOO_LONG;
    }
    let free = read_u32(new, FREE_FIELD) as usize;
    let end = free + moved + larger.head + m;
    if new.len() < end {
        return NO_ROOM;
    }
    let space = active_space(old, shape, named);
    if new.len() - end < space {
        return NO_ROOM;
    }
    0
}

// 12 and 13 of a point that is present, in modes 2 to 4: whether m bytes fit at its offset, and how many bytes of text
// it shows.
pub fn renewed_number(
    old: &[u8],
    shape: Shape,
    named: Offset,
    new: &[u8],
    larger: Shape,
    moved: usize,
    fits: bool,
    shown: usize,
    m: usize,
    mode: u32,
) -> u32
    requires { Open old.now shape × Open new.now larger
        × (message_sound (layout_of old.now) old.now named.0 ≡ true) × (moved < 2 ^ 33)
        × (mode_known mode ≡ true) × (shown < 2 ^ 32) × (m ≤ 2 ^ 63) × (mode ≡ 1 → ⊥) }
    ensures { (text bytes : Bytes) → length text ≡ shown → length bytes ≡ m
        → result ≡ renewed_number (place_of old.now new.now named.0 moved)
        (layout_of new.now) (length new.now) fits text bytes mode }
{
    if mode == REPLACE {
        if fits {
            return 0;
        }
        return room_beside(old, shape, named, new, larger, moved, m);
    }
    if mode == WITHDRAW {
        return 0;
    }
    if m == 0 {
        return 0;
    }
    room_beside(old, shape, named, new, larger, moved, shown + m)
}

// The call's own number for a point that is in neither image: 14 in mode 4, question 10 with both images' points, then
// 12 and 13.
fn absent_number(
    old: &[u8],
    shape: Shape,
    new: &[u8],
    larger: Shape,
    found: Found,
    m: usize,
    mode: u32,
) -> u32
    requires { Open old.now shape × Open new.now larger × (is_met (probe_of found) ≡ false) }
    ensures { Besides old.now new.now (probe_of found) m mode result }
{
    if mode == WITHDRAW {
        return ABSENT;
    }
    let Found::Empty(_) = found else {
        return TABLE_FULL;
    };
    let slots = larger.slots;
    let points = read_u32(old, POINTS_FIELD) as usize + read_u32(new, POINTS_FIELD) as usize;
    if slots <= points {
        return TABLE_FULL;
    }
    if (mode == APPEND) & (m == 0) {
        return 0;
    }
    room_beside(old, shape, Offset::new(0), new, larger, 0, m)
}

// The call's own number for the point in a slot of the new image: 9 before its message is looked at, then 11, then 12
// and 13.
fn present_number(
    old: &[u8],
    shape: Shape,
    new: &[u8],
    larger: Shape,
    slot: Slot,
    m: usize,
    mode: u32,
) -> u32
    requires { Open old.now shape × Open new.now larger × (slot.0 < larger.slots)
        × (mode_known mode ≡ true) × (m ≤ 2 ^ 63) }
    ensures { Besides old.now new.now (met slot.0) m mode result }
{
    if mode == NEW {
        return PRESENT;
    }
    let o = offset_of(new, larger, slot);
    if !message_sound(new, larger, o) {
        return DAMAGED;
    }
    let fits = holds(new, larger, o, m);
    let shown = shown_length(new, larger, o);
    renewed_number(
        old,
        shape,
        Offset::new(0),
        new,
        larger,
        0,
        fits,
        shown,
        m,
        mode,
    )
}

// The call's own number for a name that is not in the old image, of any m bytes.
pub fn own_number(
    old: &[u8],
    shape: Shape,
    new: &[u8],
    larger: Shape,
    key: &[u8],
    m: usize,
    mode: u32,
) -> u32
    requires { Open old.now shape × Open new.now larger × (mode_known mode ≡ true) × (m ≤ 2 ^ 63) }
    ensures { (bytes : Bytes) → length bytes ≡ m
        → result ≡ first_no (own_asks (record { old = old.entry.now; new = new.now }) key.now bytes
        mode) }
{
    let probed = search(new, larger, key);
    let found = probed.found;
    let Found::Met(slot) = found else {
        return absent_number(old, shape, new, larger, found, m, mode);
    };
    present_number(old, shape, new, larger, slot, m, mode)
}
