// Where an add or a delete of an entry may write, by its slot and its message: the windows of the image to be kept and
// compared. The header; the slots; the point's message; for add, new space.
#![tactic(auto)]

ghost use Rattle.std.specs.Prelude.{◌≡◌, true, ℕ, ◌+◌, ◌≤◌, ◌<◌, ◌^◌, length};
ghost use Rattle.spec_file.specs.Image.{layout_of};
ghost use Rattle.spec_file.specs.Questions.{message_sound};
ghost use Rattle.changes_windows.specs.Windows.{Sorted};
ghost use Rattle.header_layout.specs.Shapes.{Open};
ghost use Rattle.table_search.specs.Slots.{vacant_in};
ghost use Rattle.changes_extent.specs.Reaches.{OnMessage, Entry, Walk};

use bytes_words::fields::read_u32;
use bytes_words::limits::FREE_FIELD;
use changes_windows::{Window, Windows};
use header_layout::places::{Offset, Slot};
use header_layout::shape::Shape;
use message_read::{length_at, shown_length};
use table_search::is_vacant;

// Where the header ends, behind M.
const HEADER_END: usize = 60;

// The first m bytes of the message at the offset; nothing where there is none.
fn of_message(shape: Shape, o: Offset, m: usize) -> Window
    requires { (o.0 ≡ 0 → ⊥) → o.0 + m < 2 ^ 32 }
    ensures { OnMessage shape.area.0 o.0 m result.from result.end }
{
    let at = o.at();
    if at == 0 {
        let area = shape.area;
        return Window {
            from: area.at(),
            end: area.at(),
        };
    }
    Window {
        from: at,
        end: at + m,
    }
}

// Where `head` and m bytes from `free` on end, at most where the image does.
fn space_end(size: usize, free: usize, head: usize, m: usize) -> usize
    requires { free ≤ size }
    ensures { (free ≤ result) × (result ≤ size)
        × ((n : ℕ) → n ≤ head + m → free + n ≤ size → free + n ≤ result) }
{
    free + (size - free).min(head.saturating_add(m))
}

// What an add of m bytes may write, of slot i and the message at the offset.
pub fn of_entry(image: &[u8], shape: Shape, i: Slot, o: Offset, m: usize) -> Windows
    requires { Open image.now shape × (i.0 < shape.slots)
        × (message_sound (layout_of image.now) image.now o.0 ≡ true) }
    ensures { Sorted result (length image.now) × Entry image.now i.0 o.0 m result }
{
    let keylen = shape.keylen;
    let head = shape.head;
    let start = i.start(keylen).at();
    let free = read_u32(image, FREE_FIELD) as usize;
    let message = of_message(shape, o, head + length_at(image, shape, o));
    let shown = shown_length(image, shape, o);
    let end = space_end(image.len(), free, head + shown, m);
    Windows {
        end1: HEADER_END,
        from2: start,
        end2: start + (keylen + 4),
        from3: message.from,
        end3: message.end,
        from4: free,
        end4: end,
    }
}

// The first vacant slot behind slot i, or slot i itself.
fn walk_end(image: &[u8], shape: Shape, i: Slot) -> Slot
    requires { Open image.now shape × (i.0 < shape.slots) }
    ensures { (result.0 < shape.slots)
        × ((result.0 ≡ i.0 → ⊥) → vacant_in image.now result.0 ≡ true) }
{
    let slots = shape.slots;
    let mut j = i.next(slots);
    // Round the table from any slot, by `next`: no index is counted.
    while j.number() != i.number() {
        if is_vacant(image, shape, j) {
            return j;
        }
        j = j.next(slots);
    }
    j
}

// What a delete may write, of slot i and the message at the offset: its letter, and the slots up to the walk's end. A
// walk that goes on at the table's start reaches those above slot i and those below its end.
pub fn of_walk(image: &[u8], shape: Shape, i: Slot, o: Offset) -> Windows
    requires { Open image.now shape × (i.0 < shape.slots)
        × (message_sound (layout_of image.now) image.now o.0 ≡ true) }
    ensures { Sorted result (length image.now) × Walk image.now i.0 o.0 result }
{
    let keylen = shape.keylen;
    let area = shape.area;
    let start = i.start(keylen).at();
    let last = walk_end(image, shape, i);
    let end = last.start(keylen).at();
    let message = of_message(shape, o, 1);
    if start < end {
        return Windows {
            end1: HEADER_END,
            from2: start,
            end2: end,
            from3: message.from,
            end3: message.end,
            from4: message.end,
            end4: message.end,
        };
    }
    Windows {
        end1: end,
        from2: start,
        end2: area.at(),
        from3: message.from,
        end3: message.end,
        from4: message.end,
        end4: message.end,
    }
}
