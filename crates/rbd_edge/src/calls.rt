ghost use Rattle.std.specs.Prelude.{◌≡◌, ◌↔◌, IsTrue, Contains};
ghost use Rattle.rbd_edge.specs.Calls.{next_call};

/// The number of the call after one: from 1 upwards, and it stays at `u64::MAX`.
pub(crate) fn next_call(calls: u64) -> u64
    ensures { result ≡ next_call calls }
{
    calls.saturating_add(1)
}

/// Whether a call is among those that are to fail, by its number.
pub(crate) fn is_listed(fail: &[u64], call: u64) -> bool
    ensures { IsTrue result ↔ Contains fail.now call }
{
    fail.contains(&call)
}
