// The converter: a sound image carried into a second slice as the other version, compacted.
#![tactic(auto)]

ghost use Rattle.std.specs.Prelude.{◌≡◌, true, [], ◌∷◌, length};
ghost use Rattle.spec_file.specs.Calls.{settled};
ghost use Rattle.spec_file.specs.Questions.{ask, first_no, size_allowed};
ghost use Rattle.spec_conversion.specs.Convert.{lengths_told, target_holds, converted, convert_number, convert_into};
ghost use Rattle.compact_stages.specs.Stages.{Sound};

use bytes_words::answers::{BAD_LENGTH, NO_ROOM, TOO_LONG_FOR_1, UNSOUND};
use bytes_words::limits::{HEAD, WIDE_HEAD};
use call_check::{Verdict, check};
use convert_bare::write_bare;
use convert_need::need;
use convert_sweep::carry_all;
use header_layout::shape::{Shape, most_length, read_shape};
use header_sizes::size_allowed;

// The target of an accepted conversion: all but the messages, then these.
fn write_target(source: &[u8], target: &mut [u8], from: Shape)
    requires { Sound source.now from × (convert_number source.now (length target.old) ≡ 0) }
    ensures { target.new ≡ converted source.now (length target.old) }
{
    write_bare(source, target, from);
    let to = read_shape(target);
    carry_all(source, target, from, to);
}

// Questions 20 and 13 of a sound image; then the target is written.
fn carry_over(source: &[u8], target: &mut [u8], from: Shape) -> u32
    requires { Sound source.now from × (size_allowed (length target.old) ≡ true) }
    ensures { (result ≡ first_no (ask 20 (lengths_told source.now)
        ∷ ask 13 (target_holds source.now (length target.old)) ∷ []))
        × (target.new
        ≡ settled result target.old (converted source.now (length target.old))) }
{
    let head = HEAD + WIDE_HEAD - from.head;
    let needed = need(source, from, head, most_length(head));
    if !needed.told {
        return TOO_LONG_FOR_1;
    }
    let area = from.area;
    let start = area.at();
    if target.len() < start {
        return NO_ROOM;
    }
    if target.len() - start < needed.bytes {
        return NO_ROOM;
    }
    write_target(source, target, from);
    0
}

// Answers 0, or the number of the first no: 1 of either slice, 5 and 6 of the source, 15 if it isn't sound, then 20 and
// 13. Both slices' 1 is the same number, so that the target's may be asked first.
pub fn convert(source: &[u8], target: &mut [u8]) -> u32
    ensures { (result ≡ convert_number source.now (length target.old))
        × (target.new ≡ convert_into source.now target.old) }
{
    if !size_allowed(target.len()) {
        return BAD_LENGTH;
    }
    let found = check(source);
    match found {
        Verdict::Refused(n) => n,
        Verdict::Sound => carry_over(source, target, read_shape(source)),
        Verdict::SlotFails(_) => UNSOUND,
        Verdict::CountFails => UNSOUND,
    }
}
