//! The marks of the sections that were read.
ghost use Rattle.std.specs.Prelude.{◌≡◌, ◌↔◌, ◌≤◌, IsTrue};
ghost use Rattle.store_layout.specs.Checkpoints.{AreMarkedFrom, greatest_mark};
ghost use Rattle.checkpoint_file.specs.Loads.{sections_of};

use crate::loading::LoadedSection;

/// The greatest of the marks; 0 if there is none.
pub(crate) fn greatest_mark(sections: &[LoadedSection]) -> u64
    ensures { result ≡ greatest_mark (sections_of sections.now) }
{
    let mut greatest = 0;
    for section in sections {
        greatest = section.mark.max(greatest);
    }
    greatest
}

/// Whether no mark is below the low ticket.
pub(crate) fn are_marked_from(low: u64, sections: &[LoadedSection]) -> bool
    ensures { IsTrue result ↔ AreMarkedFrom low (sections_of sections.now) }
{
    for section in sections {
        if section.mark < low {
            return false;
        }
    }
    true
}
