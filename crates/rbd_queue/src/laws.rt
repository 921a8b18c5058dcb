//! What follows for every line: each law is the contract of a function that does nothing.
ghost use Rattle.std.specs.Prelude.{◌≡◌, ◌≢◌, ℕ, ◌≤◌, ◌&&◌, List, [], ◌∷◌, ◌++◌, Some, None, IsTrue, IsFalse, drop, is_some, length};
ghost use Rattle.std.specs.List.{list_any};
ghost use Rattle.std.specs.Option.{option_map};
ghost use Rattle.rbd_kinds.specs.Sharing.{go_together, is_alone};
ghost use Rattle.rbd_kinds.specs.declared.sharing.Sharing.{Sharing};
ghost use Rattle.rbd_queue.specs.Line.{Member, member_of, is_member, ahead, is_past, may_pass, may_enter, holds_ticket, objects_of_slot, has_turn, none_past_behind, new_member, held, passed, entered, next_piece, changed_member, without, IsFairLine};
ghost use Rattle.rbd_queue.specs.Steady.{IsSteady};

/// While a member that is alone is past its look under the lock, no other member is past its own.
/// Nobody behind a member that is alone may pass.
pub fn alone_is_alone()
    ensures past { (members : List Member) (one other : Member) → IsFairLine members
        → member_of one.slot members ≡ Some one → member_of other.slot members ≡ Some other → one.slot ≢ other.slot
        → IsTrue (is_alone one.sharing) → IsTrue (is_past one.stage) → IsFalse (is_past other.stage) }

    ensures behind { (members : List Member) (one : Member) (other : ℕ) → member_of one.slot members ≡ Some one
        → IsTrue (is_alone one.sharing) → IsTrue (is_member one.slot (ahead other members))
        → IsFalse (may_pass other members) }
{}

/// Two members that don't go together are never past their looks under the lock at once: the later
/// one waits for the end of the earlier. A flatten waits for each discard and flatten ahead of it,
/// and a discard for each flatten.
pub fn who_doesnt_go_together_waits()
    ensures past { (members : List Member) (one other : Member) → IsFairLine members
        → member_of one.slot members ≡ Some one → member_of other.slot members ≡ Some other → one.slot ≢ other.slot
        → IsFalse (go_together one.sharing other.sharing) → IsTrue (is_past one.stage) → IsFalse (is_past other.stage) }

    ensures behind { (members : List Member) (one other : Member)
        → member_of one.slot members ≡ Some one → member_of other.slot members ≡ Some other
        → IsFalse (go_together one.sharing other.sharing) → IsTrue (is_member one.slot (ahead other.slot members))
        → IsFalse (may_pass other.slot members) }
{}

/// Of two members that hold an object, the one ahead in the line has its turn there first.
pub fn turns_go_in_line()
    ensures { (members : List Member) (object other : ℕ) (one : Member)
        → member_of one.slot members ≡ Some one → IsTrue (is_member one.slot (ahead other members))
        → IsTrue (holds_ticket object one) → IsFalse (has_turn other object members) }
{}

/// Of the members that hold an object one has its turn, and one alone.
pub fn first_has_its_turn()
    ensures some { (members : List Member) (object : ℕ) → IsTrue (list_any (holds_ticket object) members)
        → IsTrue (list_any (λ m. holds_ticket object m && has_turn m.slot object members) members) }

    ensures one { (members : List Member) (object slot other : ℕ)
        → IsTrue (has_turn slot object members) → IsTrue (has_turn other object members) → slot ≡ other }
{}

/// Who has its turn keeps it, whatever the others do, until its piece is done or it leaves.
pub fn turns_stay()
    ensures joined { (members : List Member) (slot object other : ℕ) (sharing : Sharing)
        → has_turn slot object (members ++ new_member other sharing ∷ []) ≡ has_turn slot object members }

    ensures hold { (members : List Member) (slot object other : ℕ)
        → has_turn slot object (changed_member other held members) ≡ has_turn slot object members }

    ensures pass { (members : List Member) (slot object other : ℕ)
        → has_turn slot object (changed_member other passed members) ≡ has_turn slot object members }

    ensures enter { (members : List Member) (slot object other taken : ℕ) → IsFairLine members
        → IsTrue (none_past_behind other members) → other ≢ slot
        → IsTrue (has_turn slot object members)
        → IsTrue (has_turn slot object (changed_member other (entered taken) members)) }

    ensures end_piece { (members : List Member) (slot object other : ℕ) → other ≢ slot
        → IsTrue (has_turn slot object members)
        → IsTrue (has_turn slot object (changed_member other next_piece members)) }

    ensures leave { (members : List Member) (slot object other : ℕ) → other ≢ slot
        → IsTrue (has_turn slot object members) → IsTrue (has_turn slot object (without other members)) }
{}

/// The first member of a line may always pass. A member that may pass still may after another one
/// left, joined or changed (`IsSteady`: it waited, passed, took a ticket or did a piece).
pub fn passing_goes_on()
    ensures first { (m : Member) (members : List Member) → IsTrue (may_pass m.slot (m ∷ members)) }

    ensures left { (members : List Member) (slot other : ℕ) → other ≢ slot
        → IsTrue (may_pass slot members) → IsTrue (may_pass slot (without other members)) }

    ensures joined { (members : List Member) (slot other : ℕ) (sharing : Sharing)
        → IsTrue (may_pass slot members) → IsTrue (may_pass slot (members ++ new_member other sharing ∷ [])) }

    ensures changed { (members : List Member) (slot other : ℕ) (f : Member → Member) → IsSteady f
        → IsTrue (may_pass slot members) → IsTrue (may_pass slot (changed_member other f members)) }
{}

/// The members go past their looks under the lock in line order: behind a member that isn't past
/// yet, nobody is past.
pub fn passing_is_in_order()
    ensures { (members : List Member) (m : Member) → IsFairLine members → member_of m.slot members ≡ Some m
        → IsFalse (is_past m.stage) → IsTrue (none_past_behind m.slot members) }
{}

/// A change of one member shows in that member alone, and changes nothing of whether anybody behind
/// it is past.
pub fn changing()
    ensures own { (members : List Member) (slot : ℕ) (f : Member → Member) → IsSteady f
        → member_of slot (changed_member slot f members) ≡ option_map f (member_of slot members) }

    ensures others { (members : List Member) (slot other : ℕ) (f : Member → Member) → IsSteady f → other ≢ slot
        → member_of other (changed_member slot f members) ≡ member_of other members }

    ensures behind { (members : List Member) (slot : ℕ) (f : Member → Member) → IsSteady f → IsFairLine members
        → none_past_behind slot (changed_member slot f members) ≡ none_past_behind slot members }
{}

/// A slot is a member exactly where a look-up by the slot finds one, and what it finds has that
/// slot.
pub fn finding()
    ensures is_some { (members : List Member) (slot : ℕ) → is_some (member_of slot members) ≡ is_member slot members }
    ensures slot { (members : List Member) (slot : ℕ) (m : Member) → member_of slot members ≡ Some m → m.slot ≡ slot }
{}

/// A member that isn't past its look under the lock yet holds no object. Once it goes past, it may
/// take tickets one after another, if it goes beside others. Each new object comes behind those
/// that it has, and the first one goes with its piece.
pub fn taking_tickets()
    ensures none_yet { (members : List Member) (m : Member) → IsFairLine members → member_of m.slot members ≡ Some m
        → IsFalse (is_past m.stage) → m.objects ≡ [] }

    ensures passed { (members : List Member) (m : Member) → member_of m.slot members ≡ Some m
        → IsFalse (is_alone m.sharing)
        → IsTrue (may_enter m.slot (changed_member m.slot passed members)) }

    ensures entered { (members : List Member) (slot object : ℕ) → IsTrue (may_enter slot members)
        → IsTrue (may_enter slot (changed_member slot (entered object) members)) }

    ensures same { (members : List Member) (slot : ℕ) → objects_of_slot slot (changed_member slot passed members)
        ≡ objects_of_slot slot members }

    ensures one_more { (members : List Member) (slot object : ℕ) → IsTrue (is_member slot members)
        → objects_of_slot slot (changed_member slot (entered object) members) ≡ objects_of_slot slot members
        ++ object ∷ [] }

    ensures one_less { (members : List Member) (slot : ℕ)
        → objects_of_slot slot (changed_member slot next_piece members) ≡ drop 1 (objects_of_slot slot members) }
{}

/// A slot that joins is a member, one that leaves is none, and the others stay as they are.
pub fn joining_and_leaving()
    ensures joined { (members : List Member) (slot : ℕ) (sharing : Sharing) → IsFalse (is_member slot members)
        → member_of slot (members ++ new_member slot sharing ∷ []) ≡ Some (new_member slot sharing) }

    ensures joined_others { (members : List Member) (slot other : ℕ) (sharing : Sharing) → other ≢ slot
        → member_of other (members ++ new_member slot sharing ∷ []) ≡ member_of other members }

    ensures left { (members : List Member) (slot : ℕ) → member_of slot (without slot members) ≡ None }

    ensures left_others { (members : List Member) (slot other : ℕ) → other ≢ slot
        → member_of other (without slot members) ≡ member_of other members }
{}

/// The changes that a line makes are steady.
pub fn changes_are_steady()
    ensures hold { IsSteady held }
    ensures pass { IsSteady passed }
    ensures enter { (object : ℕ) → IsSteady (entered object) }
    ensures end_piece { IsSteady next_piece }
{}

/// A line has at most 64 members.
pub fn members_are_few()
    ensures { (members : List Member) → IsFairLine members → length members ≤ 64 }
{}
