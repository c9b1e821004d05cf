// A message of one image carried into new space of another, whose headers have another size.
#![tactic(auto)]

ghost use Rattle.std.specs.Prelude.{◌≡◌, ◌<◌, length};
ghost use Rattle.spec_file.specs.Image.{layout_of};
ghost use Rattle.spec_conversion.specs.Convert.{carried};
ghost use Rattle.header_layout.specs.Shapes.{Open};
ghost use Rattle.message_write.specs.Fits.{Fits};
ghost use Rattle.convert_stages.specs.Stages.{Carriable, carried_to, Passed};
ghost use Rattle.table_search.specs.Slots.{key_in, offset_in};

use bytes_words::fields::read_u32;
use bytes_words::limits::FREE_FIELD;
use header_layout::places::{Offset, Slot};
use header_layout::shape::Shape;
use message_read::{is_active, length_at, text_start};
use message_write::take_space;
use table_search::{offset_of, set_offset};

// Puts a text into new space, and where it stands into slot i, which has no offset.
fn place_text(target: &mut [u8], to: Shape, i: Slot, text: &[u8])
    requires { Open target.old to × (i.0 < to.slots) × Fits target.old to (length text.now) }
    ensures { target.new
        ≡ carried (layout_of target.old) target.old i.0 (key_in target.old i.0)
        text.now }
{
    let free = Offset::new(read_u32(target, FREE_FIELD) as usize);
    take_space(target, to, text_start(to, Offset::new(0)), 0, text);
    set_offset(target, to, i, free);
}

// Carries the text of the message at o over, if it is active, and writes where it stands into the target's slot i.
fn carry_message(source: &[u8], target: &mut [u8], from: Shape, to: Shape, i: Slot, o: Offset)
    requires { Carriable source.now target.old from to i.0 o.0 }
    ensures { target.new ≡ carried_to source.now target.old i.0 o.0 }
{
    if !is_active(source, o) {
        return;
    }
    let at = text_start(from, o).at();
    let m = length_at(source, from, o);
    place_text(target, to, i, &source[at..at + m]);
}

// Carries the message of the slot with that number, if there is one.
pub fn carry_slot(source: &[u8], target: &mut [u8], from: Shape, to: Shape, i: usize)
    requires { i < from.slots → Carriable source.now target.old from to i (offset_in source.now i) }
    ensures { Passed source.now from target.old target.new i }
{
    if from.slots <= i {
        return;
    }
    let slot = Slot::new(i);
    carry_message(
        source,
        target,
        from,
        to,
        slot,
        offset_of(source, from, slot),
    );
}
