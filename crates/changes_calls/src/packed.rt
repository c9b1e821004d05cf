// Compaction in the form that also lists what it changed.
ghost use Rattle.std.specs.Prelude.{length};
ghost use Rattle.spec_compaction.specs.Compact.{compact};
ghost use Rattle.spec_changes.specs.Lists.{Lists};

use crate::listed;
use bytes_words::answers::SHORT_SLICE;
use call_compact::compact;
use changes_windows::{slices_allowed, whole};

// Compaction, and the list of what it changed; `pairs` is how many pairs the list has now, 0 when refused.
pub fn compact_listed(image: &mut [u8], work: &mut [u8], list: &mut [u8], pairs: &mut u32) -> u32
    ensures { Lists compact
        image.old (length work.old) list.old
        image.new list.new result pairs.new }
{
    *pairs = 0;
    let size = image.len();
    if !slices_allowed(size, work.len(), list.len()) {
        return SHORT_SLICE;
    }
    listed(image, work, list, pairs, whole(size), compact)
}
