//! What entering and leaving do to the order of tickets: each law is the contract of a function
//! that does nothing.
ghost use Rattle.std.specs.Prelude.{◌≡◌, ◌≢◌, ℕ, ◌+◌, ◌<◌, Some, IsSome, IsTrue, IsFalse, List, [], ◌∷◌, ◌++◌, length, slice_get};
ghost use Rattle.rbd_guard.specs.Order.{is_in, without, AreApart};
ghost use Rattle.rbd_guard.specs.Tickets.{Tickets, queue, list, ticket_object, ticket_request, without_all, is_ahead, IsSoundGuard};

/// The first ticket of a queue stands ahead of all others, and of two tickets at most one stands
/// ahead of the other.
pub fn turns()
    ensures first { (tickets : List ℕ) (first other : ℕ)
        → slice_get tickets 0 ≡ Some first → IsTrue (is_in other tickets) → other ≢ first
        → IsTrue (is_ahead first other tickets) }

    ensures one_way { (tickets : List ℕ) (one other : ℕ)
        → AreApart tickets → IsTrue (is_ahead one other tickets) → IsFalse (is_ahead other one tickets) }
{}

/// A ticket that enters stands behind the others: the first one stays first.
pub fn entering()
    ensures alone { (ticket : ℕ) → slice_get ([] ++ ticket ∷ []) 0 ≡ Some ticket }

    ensures first_stays { (tickets : List ℕ) (ticket first : ℕ)
        → slice_get tickets 0 ≡ Some first → slice_get (tickets ++ ticket ∷ []) 0 ≡ Some first }

    ensures order { (tickets : List ℕ) (ticket one other : ℕ)
        → ticket ≢ one → ticket ≢ other → is_ahead one other (tickets ++ ticket ∷ []) ≡ is_ahead one other tickets }

    ensures last { (tickets : List ℕ) (ticket other : ℕ)
        → IsTrue (is_in other tickets) → IsTrue (is_ahead other ticket (tickets ++ ticket ∷ [])) }
{}

/// A ticket that leaves is out, the others stay in and keep their order.
pub fn leaving()
    ensures out { (tickets : List ℕ) (ticket : ℕ) → IsFalse (is_in ticket (without ticket tickets)) }

    ensures others { (tickets : List ℕ) (ticket other : ℕ)
        → other ≢ ticket → is_in other (without ticket tickets) ≡ is_in other tickets }

    ensures order { (tickets : List ℕ) (ticket one other : ℕ)
        → one ≢ ticket → other ≢ ticket → is_ahead one other (without ticket tickets) ≡ is_ahead one other tickets }

    ensures next { (tickets : List ℕ) (ticket : ℕ) → AreApart (ticket ∷ tickets)
        → without ticket (ticket ∷ tickets) ≡ tickets }

    ensures one { (tickets : List ℕ) (ticket : ℕ)
        → AreApart tickets → IsTrue (is_in ticket tickets) → length (without ticket tickets) + 1 ≡ length tickets }
{}

/// Where several tickets leave, they are out, the others stay in and keep their order.
pub fn leaving_all()
    ensures out { (tickets gone : List ℕ) (ticket : ℕ) → IsTrue (is_in ticket gone)
        → IsFalse (is_in ticket (without_all gone tickets)) }

    ensures others { (tickets gone : List ℕ) (other : ℕ)
        → IsFalse (is_in other gone) → is_in other (without_all gone tickets) ≡ is_in other tickets }

    ensures order { (tickets gone : List ℕ) (one other : ℕ)
        → IsFalse (is_in one gone) → IsFalse (is_in other gone) → is_ahead one other (without_all gone tickets)
        ≡ is_ahead one other tickets }
{}

/// A queued ticket stands in one queue, that of its object, and in one list, that of its request,
/// once in each; and its number is below that of each ticket that is given from now on.
pub fn tickets_differ()
    ensures one_queue { (g : Tickets) → IsSoundGuard g → (ticket object other : ℕ)
        → IsTrue (is_in ticket (queue object g)) → IsTrue (is_in ticket (queue other g)) → object ≡ other }

    ensures one_list { (g : Tickets) → IsSoundGuard g → (ticket request other : ℕ)
        → IsTrue (is_in ticket (list request g)) → IsTrue (is_in ticket (list other g)) → request ≡ other }

    ensures once { (g : Tickets) → IsSoundGuard g → (key : ℕ) → AreApart (queue key g) × AreApart (list key g) }

    ensures own_request { (g : Tickets) → IsSoundGuard g → (ticket object : ℕ)
        → IsTrue (is_in ticket (queue object g)) → IsSome (ticket_request ticket g) }

    ensures own_object { (g : Tickets) → IsSoundGuard g → (ticket request : ℕ)
        → IsTrue (is_in ticket (list request g)) → IsSome (ticket_object ticket g) }

    ensures earlier { (g : Tickets) → IsSoundGuard g → (ticket object : ℕ)
        → IsTrue (is_in ticket (queue object g)) → ticket < g.drawn }
{}
