// Compaction in the form that a cut does not harm.
ghost use Rattle.std.specs.Prelude.{length};
ghost use Rattle.spec_compaction.specs.Compact.{compact};
ghost use Rattle.spec_changes.specs.Journals.{Journals};

use crate::journaled;
use call_compact::compact;

// Compaction by way of the journal.
pub fn compact_journaled(image: &mut [u8], work: &mut [u8], journal: &mut [u8]) -> u32
    ensures { Journals compact
        image.old (length work.old) journal.old
        image.new journal.new result }
{
    journaled(image, work, journal, compact)
}
