//! The law of reports.

ghost use Rattle.code_report.specs.Theorems.{ReportsAreUnique};

use sensitivity::classes_are_unique;

/// A source with its program has one report at most.
pub fn reports_are_unique()
    ensures { ReportsAreUnique }
{
    classes_are_unique();
}
