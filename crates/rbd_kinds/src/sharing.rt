//! Beside which others a request goes.
ghost use Rattle.std.specs.Prelude.{◌≡◌};
ghost use Rattle.rbd_kinds.specs.Sharing.{are_apart, go_together, is_alone};

/// Beside which other requests of its session and its image a request may be past its look under
/// the lock (own; Ceph: one client's requests share its lock).
#[derive(Clone, Copy, PartialEq, Eq)]
pub enum Sharing {
    /// Beside none: it changes more than bytes.
    Alone,
    /// Beside all that aren't alone: a `write` or a `fill`.
    Shared,
    /// Beside those, but no `flatten`: a `discard`.
    Discard,
    /// Beside those, but no `discard` and no other `flatten`: a `flatten`.
    Flatten,
}

impl Sharing {
    /// Whether it goes beside none.
    pub fn is_alone(&self) -> bool
        ensures { result ≡ is_alone self.now }
    {
        match self {
            Sharing::Alone => true,
            _ => false,
        }
    }

    /// Whether two requests may be past their looks under the lock at once.
    pub fn goes_with(&self, other: &Sharing) -> bool
        ensures { result ≡ go_together self.now other.now }
    {
        !self.is_alone() && !other.is_alone() && !self.is_apart_from(other)
    }

    /// Whether they are kept apart though neither is alone.
    fn is_apart_from(&self, other: &Sharing) -> bool
        ensures { result ≡ are_apart self.now other.now }
    {
        match self {
            Sharing::Discard => match other {
                Sharing::Flatten => true,
                _ => false,
            },
            Sharing::Flatten => match other {
                Sharing::Discard => true,
                Sharing::Flatten => true,
                _ => false,
            },
            _ => false,
        }
    }
}
