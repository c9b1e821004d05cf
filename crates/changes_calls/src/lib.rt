// Add and delete in the form that also lists what they changed: the image's bytes before the call are kept in a working
// slice where the call may write, and compared with those after it.
//     packed    compaction in this form
#![tactic(auto)]

pub mod packed;

ghost use Rattle.std.specs.Prelude.{◌≡◌, true, ◌&&◌, ℕ, ◌<◌, ◌^◌, length};
ghost use Rattle.std.specs.Fn.{FnOnceReturnsAtMut};
ghost use Rattle.spec_file.specs.Bytes.{Bytes};
ghost use Rattle.spec_file.specs.Calls.{Outcome, add, delete};
ghost use Rattle.spec_changes.specs.Changes.{list_allowed, work_allowed};
ghost use Rattle.spec_changes.specs.Lists.{Lists};
ghost use Rattle.changes_extent.specs.Reaches.{Only};
ghost use Rattle.changes_windows.specs.Windows.{Sorted};

use bytes_words::answers::SHORT_SLICE;
use call_add::add;
use call_delete::delete;
use changes_bytes::keep;
use changes_pairs::fill_list_within;
use changes_reach::{of_add, of_delete};
use changes_windows::{Windows, slices_allowed};

// A call that may write in these windows, and the list of what it changed, of whatever outcome the call is on the
// image; the slices are allowed. `pairs`, which is 0, is how many pairs the list has now, 0 when refused.
fn listed<F: FnOnce(&mut [u8]) -> u32>(
    image: &mut [u8],
    work: &mut [u8],
    list: &mut [u8],
    pairs: &mut u32,
    windows: Windows,
    call: F,
) -> u32
    requires callable { F.IsAlwaysCallable call }
    requires cleared { pairs.old ≡ 0 }
    requires fits { (list_allowed (length list.old) && work_allowed (length image.old) (length work.old)) ≡ true }
    requires sorted { Sorted windows (length image.old) }
    requires small { (number : ℕ) (after : Bytes) → FnOnceReturnsAtMut F.FnOnce call image.old number after
        → number ≡ 0 → length image.old < 2 ^ 32 }
    ensures { (outcome : Bytes → Outcome Bytes)
        → ((number : ℕ) (after : Bytes) → FnOnceReturnsAtMut F.FnOnce call image.old number after
        → (number ≡ (outcome image.old).answer.number) × (after ≡ (outcome image.old).after))
        → (((outcome image.old).answer.number ≡ 0 → ⊥) → (outcome image.old).after ≡ image.old)
        → (length (outcome image.old).after ≡ length image.old → Only outcome image.old windows)
        → Lists outcome
        image.old (length work.old) list.old
        image.new list.new result pairs.new }
{
    keep(work, image, windows);
    let number = call(image);
    if number != 0 {
        return number;
    }
    *pairs = fill_list_within(list, work, image, windows);
    0
}

// Add, and the list of what it changed; `pairs` is how many pairs the list has now, 0 when refused.
pub fn add_listed(
    image: &mut [u8],
    key: &[u8],
    bytes: &[u8],
    mode: u32,
    work: &mut [u8],
    list: &mut [u8],
    pairs: &mut u32,
) -> u32
    ensures { Lists (λ (img : Bytes). add img key.now bytes.now mode)
        image.old (length work.old) list.old
        image.new list.new result pairs.new }
{
    *pairs = 0;
    if !slices_allowed(image.len(), work.len(), list.len()) {
        return SHORT_SLICE;
    }
    let windows = of_add(image, key, bytes, mode);
    listed(
        image,
        work,
        list,
        pairs,
        windows,
        |image| add(image, key, bytes, mode),
    )
}

// Delete, and the list of what it changed; `pairs` is how many pairs the list has now, 0 when refused.
pub fn delete_listed(
    image: &mut [u8],
    key: &[u8],
    work: &mut [u8],
    list: &mut [u8],
    pairs: &mut u32,
) -> u32
    ensures { Lists (λ (img : Bytes). delete img key.now)
        image.old (length work.old) list.old
        image.new list.new result pairs.new }
{
    *pairs = 0;
    if !slices_allowed(image.len(), work.len(), list.len()) {
        return SHORT_SLICE;
    }
    let windows = of_delete(image, key);
    listed(
        image,
        work,
        list,
        pairs,
        windows,
        |image| delete(image, key),
    )
}
