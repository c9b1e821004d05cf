// The walk and the check as the exports tell them: the answer is the number, and slots, places and verdicts go to
// numbers of 32 bits that are lent.
#![tactic(auto)]

ghost use Rattle.export_walk.specs.Walks.{Walks, Judges};

use bytes_words::fields::read_u32;
use bytes_words::limits::KEY_FIELD;
use call_check::Verdict;
use call_walk::{Stop, next_taken};

// The lowest taken slot at or above `from`, and where its key stands; both 0 at the end or when refused.
pub fn walk(image: &[u8], from: u32, slot: &mut u32, place: &mut u32) -> u32
    ensures { Walks image.now from
        image.now result slot.new place.new }
{
    *slot = 0;
    *place = 0;
    let stop = next_taken(image, from);
    match stop {
        Stop::Refused(n) => n,
        Stop::At(i) => {
            let size = read_u32(image, KEY_FIELD) as usize;
            *slot = i.number() as u32;
            *place = i.start(size).at() as u32;
            0
        }
        Stop::End => 0,
    }
}

// Whether the image is sound: verdict 0 sound, 1 the slot fails, 2 the count fails. The slot is 0 but for verdict 1.
pub fn check(image: &[u8], verdict: &mut u32, slot: &mut u32) -> u32
    ensures { Judges image.now
        image.now result verdict.new slot.new }
{
    *verdict = 0;
    *slot = 0;
    let found = call_check::check(image);
    match found {
        Verdict::Refused(n) => n,
        Verdict::Sound => 0,
        Verdict::SlotFails(i) => {
            *verdict = 1;
            *slot = i.number() as u32;
            0
        }
        Verdict::CountFails => {
            *verdict = 2;
            0
        }
    }
}
