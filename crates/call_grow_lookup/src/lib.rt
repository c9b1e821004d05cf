// Lookup and count on a pair of images, in growth. The old image is searched first.
//     count_pair    the number of points that both hold
//     locate_pair   where a point's active message stands, and in which image, as numbers
//     lookup_pair   the message as a part of that image
#![tactic(auto)]

ghost use Rattle.std.specs.Prelude.{◌≡◌, length};
ghost use Rattle.spec_file.specs.Messages.{bytes_of, is_text};
ghost use Rattle.spec_file.specs.Search.{is_met};
ghost use Rattle.spec_growth.specs.Growth.{grow_lookup, grow_count};
ghost use Rattle.table_search.specs.Probes.{probe_of};
ghost use Rattle.call_grow_lookup.specs.Locates.{Locates};

use bytes_words::answers::BAD_KEY;
use bytes_words::fields::read_u32;
use bytes_words::limits::POINTS_FIELD;
use call_lookup::{Counted, Located, locate_found, nothing};
use growth_open::pair_number;
use header_layout::shape::read_shape;
use header_open::name_allowed;
use table_search::{Found, search};

// Whether the new image holds the point, and what lookup answers there, as numbers; in the old one where it does not.
#[derive(Clone, Copy)]
pub struct PairLocated {
    pub in_new: bool,
    pub located: Located,
}

// The number of points in both images; 0 beside the number when refused.
pub fn count_pair(old: &[u8], new: &[u8]) -> Counted
    ensures number { result.number
        ≡ (grow_count (record { old = old.entry.now; new = new.now })).answer.number }
    ensures points { result.points
        ≡ (grow_count (record { old = old.entry.now; new = new.now })).answer.amount }
{
    let number = pair_number(old, new);
    if number != 0 {
        return Counted { number, points: 0 };
    }
    let points = read_u32(old, POINTS_FIELD) + read_u32(new, POINTS_FIELD);
    Counted { number: 0, points }
}

// Whether a search met its key.
pub fn is_met(found: Found) -> bool
    ensures { result ≡ is_met (probe_of found) }
{
    match found {
        Found::Met(_) => true,
        Found::Empty(_) => false,
        Found::Exhausted => false,
    }
}

// Where the active message of the key's point stands.
pub fn locate_pair(old: &[u8], new: &[u8], key: &[u8]) -> PairLocated
    ensures { Locates (record { old = old.entry.now; new = new.now }) key.now result }
{
    let number = pair_number(old, new);
    if number != 0 {
        let located = nothing(number);
        return PairLocated {
            in_new: false,
            located,
        };
    }
    let shape = read_shape(old);
    if !name_allowed(key, shape.keylen) {
        let located = nothing(BAD_KEY);
        return PairLocated {
            in_new: false,
            located,
        };
    }
    let probed = search(old, shape, key);
    let found = probed.found;
    if is_met(found) {
        let located = locate_found(old, shape, found);
        return PairLocated {
            in_new: false,
            located,
        };
    }
    let larger = read_shape(new);
    let sought = search(new, larger, key);
    let ended = sought.found;
    let located = locate_found(new, larger, ended);
    PairLocated {
        in_new: true,
        located,
    }
}

// The active message of the key's point, as a part of the image that holds it: its first 0 bytes where there is none or
// when refused, and then `shown` is false, which tells no message from an empty one.
pub fn lookup_pair<'a>(
    old: &'a [u8],
    new: &'a [u8],
    key: &[u8],
    number: &mut u32,
    shown: &mut bool,
) -> &'a [u8]
    ensures number { number.new
        ≡ (grow_lookup (record { old = old.entry.now; new = new.now }) key.now).answer.number }
    ensures shown { shown.new ≡ is_text
        (grow_lookup (record { old = old.entry.now; new = new.now }) key.now).answer.text }
    ensures text { result.now ≡ bytes_of
        (grow_lookup (record { old = old.entry.now; new = new.now }) key.now).answer.text }
    ensures length { length result.now
        ≡ (grow_lookup (record { old = old.entry.now; new = new.now }) key.now).answer.amount }
{
    let held = locate_pair(old, new, key);
    let found = held.located;
    *number = found.number;
    let start = found.start.at();
    *shown = start != 0;
    let end = start + found.length;
    if held.in_new {
        return &new[start..end];
    }
    &old[start..end]
}
