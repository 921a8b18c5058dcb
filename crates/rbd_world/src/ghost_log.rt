//! A list that only proofs read.
ghost use Rattle.std.specs.Prelude.{◌≡◌, List, [], ◌∷◌, ◌++◌};
ghost use Rattle.std.specs.Borrow.{ftrue};

use std::marker::{Model, PhantomData};

/// Pairs, in the order in which they were added. Contracts read them as `items`. It takes no memory,
/// and its methods do nothing at run time.
#[derive(Drop)]
pub struct GhostLog<A, B> {
    of: PhantomData<(A, B)>,
    pub ghost items: { List (A × B) },
}

impl<A, B> Model for GhostLog<A, B> {
    ghost also_owns = { λ _. ftrue };
}

impl<A, B> GhostLog<A, B> {
    /// No pairs.
    pub fn new() -> GhostLog<A, B>
        ensures { result.items ≡ [] }
    {
        GhostLog { of: PhantomData }
    }

    /// The same pairs, and this one behind them.
    pub fn and(&self, first: &A, second: &B) -> GhostLog<A, B>
        ensures { result.items ≡ self.now.items ++ (first.now, second.now) ∷ [] }
    {
        GhostLog { of: PhantomData }
    }
}
