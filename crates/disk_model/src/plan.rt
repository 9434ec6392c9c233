ghost use Rattle.std.specs.Prelude.{◌≡◌};
ghost use Rattle.disk_model.specs.Plans.{due_of, passed};

use crate::Fill;

/// A device call that is to fail.
#[derive(Drop)]
pub struct Failure {
    /// How many calls come before it.
    pub after: u64,
    /// What is to be read after it, if it is a write.
    pub fill: Fill,
}

/// Counts one call, and takes the fill with which it fails.
pub(crate) fn take_due(failure: &mut Option<Failure>) -> Option<Fill>
    ensures due { result ≡ due_of failure.old }
    ensures passed { failure.new ≡ passed failure.old }
{
    match failure.take() {
        Some(Failure { after: 0, fill }) => Some(fill),
        Some(Failure { after, fill }) => {
            *failure = Some(Failure {
                after: after - 1,
                fill,
            });
            None
        }
        None => None,
    }
}
