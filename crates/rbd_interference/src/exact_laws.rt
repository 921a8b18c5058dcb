//! What requests owe to object maps, and what is exact: laws, each the contract of a function that
//! does nothing.
ghost use Rattle.std.specs.Prelude.{ℕ, List, [], IsFalse, Option, None};
ghost use Rattle.rbd_commands.specs.declared.command.Command.{Command};
ghost use Rattle.rbd_flat.specs.Flat.{Flat};
ghost use Rattle.rbd_kinds.specs.declared.id.Instance.{Instance};
ghost use Rattle.rbd_kinds.specs.declared.id.SiteId.{SiteId as Site};
ghost use Rattle.rbd_kinds.specs.declared.machine.Fed.{Fed};
ghost use Rattle.rbd_kinds.specs.declared.operation.Op.{Op};
ghost use Rattle.rbd_machine.specs.Knowledge.{Knowledge};
ghost use Rattle.rbd_machine.specs.Path.{Answered, IsWalk};
ghost use Rattle.rbd_machine.specs.Permits.{Permits};
ghost use Rattle.rbd_machine.specs.Plan.{Plan, Standing};
ghost use Rattle.rbd_machine.specs.Refused.{AreGiven};
ghost use Rattle.rbd_machine.specs.Standalone.{TellAllStandalone};
ghost use Rattle.rbd_machine.specs.declared.seat.Seat.{Seat};
ghost use Rattle.rbd_interference.specs.Truth.{AreMapped, IsTrueAt};
ghost use Rattle.rbd_catalog.specs.Plans.{IsPlanFor};
ghost use Rattle.rbd_site.specs.InForm.{AreInForm};
ghost use Rattle.rbd_site.specs.Log.{expired, trimmed};
ghost use Rattle.rbd_site.specs.Records.{Records, no_records};
ghost use Rattle.rbd_site.specs.Step.{after, is_fenced};
ghost use Rattle.rbd_stands.specs.Site.{StandsFor};
ghost use Rattle.rbd_interference.specs.Exact.{KeepsWhatIsOwed, IsExactBut, IsOwed};
ghost use Rattle.rbd_interference.specs.Owed.{PaysFrom, PaysItsStates, Spot, owed_behind};

/// The plan of each command pays for each state that it sets before it does anything else: behind
/// state 1 it makes the object, and behind another state than 0 it removes the object and sets its
/// state to 0. It removes no other object, unless it removes the whole image.
pub fn requests_pay_their_states()
    ensures { (seat : Seat) (command : Command) (s : Standing) → IsPlanFor seat command s → PaysFrom None s }
{}

/// Wherever a walk of such a plan stands, it owes what its last operations left to do, and does
/// that next, as long as no image has a parent.
pub fn walks_owe_by_their_last_operation()
    ensures { (s : Standing) (feds : List Fed) (steps : List Answered) (last : Plan)
        → PaysFrom None s → AreGiven steps → TellAllStandalone steps → IsWalk s.labels s.plan feds steps last
        → PaysItsStates (owed_behind steps) last }
{}

/// Maps that are exact but for what is owed stay so under each operation that true knowledge
/// permits to an instance that isn't fenced, and that keeps the rules of what is owed: they are
/// exact then but for what is owed from there on.
pub fn exact_maps_stay_exact()
    ensures first { (site : Site) (debts : (who : ℕ) → Option Spot) → IsExactBut (IsOwed debts site) no_records }
    ensures operation { (site : Site) (r : Records) (f : Flat) (k : Knowledge) (me : Instance) (op : Op) (most : ℕ)
        (debts later : (who : ℕ) → Option Spot)
        → StandsFor [] r f → AreInForm r most → AreMapped r → IsTrueAt site r me k → Permits k site op
        → IsFalse (is_fenced r me)
        → KeepsWhatIsOwed r.headers op (IsOwed debts site) (IsOwed later site) → IsExactBut (IsOwed debts site) r
        → IsExactBut (IsOwed later site) (after r me op) }
    ensures trim { (site : Site) (r : Records) (image number : ℕ) (debts : (who : ℕ) → Option Spot)
        → IsExactBut (IsOwed debts site) r → IsExactBut (IsOwed debts site) (trimmed image number r) }
    ensures expiry { (site : Site) (r : Records) (image : ℕ) (i : Instance) (debts : (who : ℕ) → Option Spot)
        → IsExactBut (IsOwed debts site) r → IsExactBut (IsOwed debts site) (expired image i r) }
{}
