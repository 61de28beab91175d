//! What is said of the desk: an empty one is honest, files of one canonical text have one report, and a repeated study acts once.
ghost use Rattle.std.specs.Prelude.{[]};
ghost use Rattle.lie_desk.specs.Kept.{AreHonest};
ghost use Rattle.lie_desk.specs.Laws.{CanonicalTextIsOne, CanonicalTextFixesReport, RepeatedStudyActsOnce, SomeStudyIsDue};

use lie_canonical::laws::canonical_texts_are_files;
use lie_solved::laws::leads_keep_solved_form;
use lie_work::laws::some_work_is_due;

/// A desk without rows is honest.
pub fn empty_desk_is_honest()
    ensures { AreHonest [] }
{}

/// A file has one canonical text at most.
pub fn canonical_text_is_one()
    ensures { CanonicalTextIsOne }
{}

/// The report of a file is the report of every file of its canonical text.
pub fn canonical_text_fixes_report()
    ensures { CanonicalTextFixesReport }
{
    canonical_texts_are_files();
    leads_keep_solved_form();
}

/// A study that is repeated, with whatever budget and after any studies and drops but of its name, gives the same report and leaves the
/// rows.
pub fn repeated_study_acts_once()
    ensures { RepeatedStudyActsOnce }
{}

/// Of any file and any rows some study is due.
pub fn some_study_is_due()
    ensures { SomeStudyIsDue }
{
    some_work_is_due();
}
