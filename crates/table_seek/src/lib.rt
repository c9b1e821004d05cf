// What every call on a named point does first: questions 1, 5, 6 and 7, add's 8, and the search for the key.
#![tactic(auto)]

ghost use Rattle.std.specs.Prelude.{◌≡◌};
ghost use Rattle.table_seek.specs.Seeks.{SoughtIs, read_of};

use bytes_words::answers::{BAD_KEY, BAD_MODE};
use header_layout::shape::{Shape, read_shape};
use header_open::{name_allowed, open_number};
use table_search::{Found, search};

// Refused with the number of the first no; or the image's shape, how the search ended, and how many slots it read.
#[derive(Clone, Copy)]
pub enum Sought {
    Refused(u32),
    At(Shape, Found, usize),
}

// What a call on a name answers: the number of the first no, 0 where there is none; and how many slots its search read,
// 0 where a question before it was answered no.
#[derive(Clone, Copy)]
pub struct Told {
    pub number: u32,
    pub read: usize,
}

// Asks, then searches; `known` is the answer to question 8, yes where the call has no mode.
pub fn seek(image: &[u8], key: &[u8], known: bool) -> Sought
    ensures { SoughtIs image.now key.now known result }
{
    let number = open_number(image);
    if number != 0 {
        return Sought::Refused(number);
    }
    let shape = read_shape(image);
    if !name_allowed(key, shape.keylen) {
        return Sought::Refused(BAD_KEY);
    }
    if !known {
        return Sought::Refused(BAD_MODE);
    }
    let probed = search(image, shape, key);
    let found = probed.found;
    Sought::At(shape, found, probed.read)
}

// How many slots the search read, 0 where a question before it was answered no.
pub fn slots_read(sought: Sought) -> usize
    ensures { result ≡ read_of sought }
{
    match sought {
        Sought::Refused(_) => 0,
        Sought::At(_, _, read) => read,
    }
}
