// Questions 12 and 13: whether a message has room behind the last one.
#![tactic(auto)]

ghost use Rattle.std.specs.Prelude.{◌≡◌, length};
ghost use Rattle.std.proofs.Math.Option.{some};
ghost use Rattle.spec_file.specs.Bytes.{Bytes};
ghost use Rattle.spec_file.specs.Image.{layout_of};
ghost use Rattle.spec_file.specs.Questions.{place_number};
ghost use Rattle.header_layout.specs.Shapes.{Open};

use bytes_words::answers::{NO_ROOM, TOO_LONG};
use bytes_words::fields::read_u32;
use bytes_words::limits::FREE_FIELD;
use header_layout::shape::{Shape, most_length};

// The number of the first no of questions 12 and 13, of any text of m bytes; 0 where there is none.
pub fn room_number(image: &[u8], shape: Shape, m: usize) -> u32
    requires { Open image.now shape }
    ensures { (t : Bytes) → length t ≡ m
        → result ≡ place_number (layout_of image.now) image.now (some t) }
{
    if most_length(shape.head) < m {
        return TOO_LONG;
    }
    let free = read_u32(image, FREE_FIELD) as usize;
    if image.len() < free + shape.head + m {
        return NO_ROOM;
    }
    0
}
