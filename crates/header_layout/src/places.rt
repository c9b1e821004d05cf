// A slot's number and an absolute offset are two types; only the functions here turn one into a number or the other.
ghost use Rattle.std.specs.Prelude.{◌≡◌, ◌+◌, ◌*◌, ◌≤◌, ◌<◌};
ghost use Rattle.spec_file.specs.Search.{next};
ghost use Rattle.spec_file.specs.Limits.{most_key, most_slots, table_start};

use bytes_words::limits::TABLE_START;

// A slot of the table.
#[derive(Clone, Copy)]
pub struct Slot(usize);

// An absolute offset in the image.
#[derive(Clone, Copy)]
pub struct Offset(usize);

impl Slot {
    pub fn new(number: usize) -> Slot
        ensures { result.0 ≡ number }
    {
        Slot(number)
    }

    pub fn number(self) -> usize
        ensures { result ≡ self.0 }
    {
        self.0
    }

    // Where the slot's bytes begin.
    pub fn start(self, keylen: usize) -> Offset
        requires { (self.0 < most_slots) × (keylen ≤ most_key) }
        ensures { result.0 ≡ table_start + self.0 * (keylen + 4) }
    {
        Offset(TABLE_START + self.0 * (keylen + 4))
    }

    // The slot after this one, wrapping to the first.
    pub fn next(self, slots: usize) -> Slot
        requires { self.0 < slots }
        ensures { result.0 ≡ next slots self.0 }
    {
        if self.0 + 1 < slots {
            Slot(self.0 + 1)
        } else {
            Slot(0)
        }
    }
}

impl Offset {
    pub fn new(at: usize) -> Offset
        ensures { result.0 ≡ at }
    {
        Offset(at)
    }

    pub fn at(self) -> usize
        ensures { result ≡ self.0 }
    {
        self.0
    }
}
