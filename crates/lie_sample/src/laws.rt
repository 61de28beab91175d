//! What is said of the outcome that is due: there is one, whatever the last member and the budget.
ghost use Rattle.lie_sample.specs.Members.{SomeSampleIsDue};

use lie_work::laws::some_work_is_due;

/// Some outcome is due. It rests on the law that some outcome of the work on each file is.
pub fn some_sample_is_due()
    ensures { SomeSampleIsDue }
{
    some_work_is_due();
}
