//! What the definitions come to on files that were worked by hand.

ghost use Rattle.spool_file.specs.Worked.{FilesAreAsWorked};

/// Fronts, sizes, slots and bodies worked by hand.
pub fn files_are_as_worked()
    ensures { FilesAreAsWorked }
{}
