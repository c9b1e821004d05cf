// Select as the exports tell it, of one image and of a pair: the call's answer, and that the images stay.
#![tactic(auto)]

ghost use Rattle.export_select.specs.Selects.{Selects, PairSelects};

// Lists the taken slots whose every key byte lies in its range, as numbers of 4 bytes; `found` is how many they are.
pub fn select(image: &[u8], lowest: &[u8], highest: &[u8], list: &mut [u8], found: &mut u32) -> u32
    ensures { Selects image.now lowest.now highest.now list.old
        image.now list.new result found.new }
{
    call_select::select(image, lowest, highest, list, found)
}

// The same in growth: the slots of the old image, `first` of them, then those of the new one, `second` of them.
pub fn grow_select(
    old: &[u8],
    new: &[u8],
    lowest: &[u8],
    highest: &[u8],
    list: &mut [u8],
    first: &mut u32,
    second: &mut u32,
) -> u32
    ensures { PairSelects (record { old = old.entry.now; new = new.now }) lowest.now
        highest.now list.old
        old.exit.now new.now list.new result first.new second.new }
{
    call_grow_select::select_pair(old, new, lowest, highest, list, first, second)
}
