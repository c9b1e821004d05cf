// The numbers of a header that place an image's bytes and that no call changes, and those of a message's header.
ghost use Rattle.std.specs.Prelude.{◌≡◌};
ghost use Rattle.spec_file.specs.Image.{layout_of};
ghost use Rattle.spec_file.specs.Messages.{head_size};
ghost use Rattle.spec_file.specs.Questions.{open_number};
ghost use Rattle.header_layout.specs.Shapes.{mask_by, most_by, shape_of};

use crate::places::Offset;
use bytes_words::fields::read_u32;
use bytes_words::limits::{
    DATA_FIELD, FIRST_FIELD, HEAD, KEY_FIELD, LAST_FIELD, MOST_LENGTH, MOST_WIDE, MULTIPLIER_FIELD,
    SLOTS_FIELD, START_FIELD, VERSION_FIELD, WIDE_HEAD,
};

// K, N and D; the size of a message's header; the hash's numbers (its basis is 01's
// start value).
#[derive(Clone, Copy)]
pub struct Shape {
    pub keylen: usize,
    pub slots: usize,
    pub area: Offset,
    pub head: usize,
    pub multiplier: u32,
    pub basis: u32,
    pub first: u32,
    pub last: u32,
}

// The size of a message's header: 4 in version 1, 5 in version 2. Without a comparison: every call pays for it.
fn head_size(image: &[u8]) -> usize
    requires { open_number image.now ≡ 0 }
    ensures { result ≡ head_size (layout_of image.now) }
{
    HEAD - 1 + (image[VERSION_FIELD] as usize)
}

// A message's largest length, by the size of its header.
pub fn most_length(head: usize) -> usize
    ensures { result ≡ most_by head }
{
    if head == WIDE_HEAD {
        return MOST_WIDE;
    }
    MOST_LENGTH
}

// The bits of a length, by the size of its header.
pub fn length_mask(head: usize) -> u32
    ensures { result ≡ mask_by head }
{
    if head == WIDE_HEAD {
        return 0xffffffff;
    }
    0xffffff
}

pub fn read_shape(image: &[u8]) -> Shape
    requires { open_number image.now ≡ 0 }
    ensures { result ≡ shape_of image.now }
{
    let keylen = read_u32(image, KEY_FIELD) as usize;
    let slots = read_u32(image, SLOTS_FIELD) as usize;
    let multiplier = read_u32(image, MULTIPLIER_FIELD);
    let basis = read_u32(image, START_FIELD);
    let first = read_u32(image, FIRST_FIELD);
    let last = read_u32(image, LAST_FIELD);
    let area = Offset::new(read_u32(image, DATA_FIELD) as usize);
    let head = head_size(image);
    Shape {
        keylen,
        slots,
        area,
        head,
        multiplier,
        basis,
        first,
        last,
    }
}
