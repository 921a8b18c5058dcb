//! A piece of a change that goes object by object.
ghost use Rattle.std.specs.Prelude.{◌≡◌, ℕ};

use crate::steps::ChangeSteps;

/// One object's piece of a change. Before its first operation the request waits for its turn at
/// that object.
pub trait ObjectChange: ChangeSteps {
    /// The number of its object.
    ghost number: { Self → ℕ };

    /// The number of its object.
    fn object(&self) -> u64
        ensures { result ≡ number self.now };
}
