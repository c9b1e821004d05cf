// Add, delete and lookup in the form that tells how many slots the search read, as the exports tell them: the answer is
// the number, and the others go to numbers of 32 bits that are lent.
#![tactic(auto)]

ghost use Rattle.export_slots.specs.Slots.{AddSlots, DeleteSlots, LookupSlots};

use call_lookup::locate_slots;

// Stores as `call_add::add` does; and how many slots the search for the key read, 0 when refused with 1 or 5 to 8.
pub fn add_slots(image: &mut [u8], key: &[u8], bytes: &[u8], mode: u32, read: &mut u32) -> u32
    ensures { AddSlots image.old key.now bytes.now mode
        image.new result read.new }
{
    let told = call_add::add_slots(image, key, bytes, mode);
    *read = told.read as u32;
    told.number
}

// Deletes as `call_delete::delete` does; and how many slots the search read, 0 when refused with 1 or 5 to 7.
pub fn delete_slots(image: &mut [u8], key: &[u8], read: &mut u32) -> u32
    ensures { DeleteSlots image.old key.now
        image.new result read.new }
{
    let told = call_delete::delete_slots(image, key);
    *read = told.read as u32;
    told.number
}

// Looks up as `export_lookup::lookup` does; and how many slots the search read, 0 when refused with 1 or 5 to 7.
pub fn lookup_slots(
    image: &[u8],
    key: &[u8],
    offset: &mut u32,
    length: &mut u32,
    read: &mut u32,
) -> u32
    ensures { LookupSlots image.now key.now
        image.now result offset.new length.new read.new }
{
    let looked = locate_slots(image, key);
    let found = looked.located;
    let start = found.start;
    *offset = start.at() as u32;
    *length = found.length as u32;
    *read = looked.read as u32;
    found.number
}
