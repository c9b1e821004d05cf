// The entry of a prism at an epoch: its epoch and its message.
//     locate_at   the epoch, and where the active message stands, as numbers
//     at_epoch    the message as a part of the lent image
#![tactic(auto)]

ghost use Rattle.std.specs.Prelude.{◌≡◌, length};
ghost use Rattle.spec_file.specs.Messages.{bytes_of, is_text};
ghost use Rattle.spec_epoch.specs.Epochs.{refused_dated, at_epoch};
ghost use Rattle.table_search.specs.Probes.{probe_of};
ghost use Rattle.call_at_epoch.specs.Answers.{Answers, Picked, shown_of};

use bytes_words::answers::{BAD_KEY, NO_EPOCHS};
use call_lookup::{Located, locate_found, nothing};
use epoch_choose::{Chosen, choose};
use header_layout::shape::{Shape, read_shape};
use header_open::open_number;

// The shortest key that has a name beside an epoch, and the bytes of an epoch.
pub const LEAST_KEY: usize = 5;

pub const EPOCH_SIZE: usize = 4;

// What the call answers, as numbers: the epoch of the entry that is shown, 0 when refused, and what lookup answers of
// it.
#[derive(Clone, Copy)]
pub struct Dated {
    pub epoch: u32,
    pub located: Located,
}

// An answer that shows nothing.
pub fn refused(number: u32) -> Dated
    ensures { Answers (refused_dated number) result }
{
    let located = nothing(number);
    Dated { epoch: 0, located }
}

// What is shown of the entry that was chosen: questions 14 and 11.
pub fn show(image: &[u8], shape: Shape, chosen: Chosen) -> Dated
    requires { Picked image.now shape chosen }
    ensures { Answers (shown_of image.now (probe_of chosen.found)) result }
{
    let found = chosen.found;
    let located = locate_found(image, shape, found);
    if located.number != 0 {
        return Dated { epoch: 0, located };
    }
    Dated {
        epoch: chosen.epoch,
        located,
    }
}

// The epoch of the entry of the name with the largest epoch at most t, and where its active message stands.
pub fn locate_at(image: &[u8], name: &[u8], t: u32) -> Dated
    ensures { Answers (at_epoch image.now name.now t) result }
{
    let number = open_number(image);
    if number != 0 {
        return refused(number);
    }
    let shape = read_shape(image);
    let size = shape.keylen;
    if size < LEAST_KEY {
        return refused(NO_EPOCHS);
    }
    if name.len() + EPOCH_SIZE != size {
        return refused(BAD_KEY);
    }
    show(image, shape, choose(image, shape, name, t))
}

// The same with the message as a part of the image: its first 0 bytes where there is none or when refused, and then
// `shown` is false, which tells no message from an empty one.
pub fn at_epoch<'a>(
    image: &'a [u8],
    name: &[u8],
    t: u32,
    number: &mut u32,
    epoch: &mut u32,
    shown: &mut bool,
) -> &'a [u8]
    ensures number { number.new ≡ (at_epoch image.now name.now t).number }
    ensures epoch { epoch.new ≡ (at_epoch image.now name.now t).epoch }
    ensures shown { shown.new ≡ is_text (at_epoch image.now name.now t).text }
    ensures text { result.now ≡ bytes_of (at_epoch image.now name.now t).text }
    ensures length { length result.now ≡ (at_epoch image.now name.now t).length }
{
    let dated = locate_at(image, name, t);
    let found = dated.located;
    *number = found.number;
    *epoch = dated.epoch;
    let start = found.start.at();
    *shown = start != 0;
    let end = start + found.length;
    &image[start..end]
}
