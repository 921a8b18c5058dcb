//! What removals do, by how many operations, and what their replies mean: laws, each the contract
//! of a function that does nothing.
ghost use Rattle.std.specs.Prelude.{◌≡◌, ◌≢◌, ℕ, ◌+◌, ◌≤◌, ◌↔◌, false, List, [], length, Contains, Some, None};
ghost use Rattle.std.specs.List.Sorted.{IsStrictlyIncreasing};
ghost use Rattle.rbd_commands.specs.declared.command.Command.{Command};
ghost use Rattle.rbd_kinds.specs.declared.header.HeaderView.{HeaderView};
ghost use Rattle.rbd_kinds.specs.declared.id.SiteId.{SiteId};
ghost use Rattle.rbd_kinds.specs.declared.machine.Fed.{Fed};
ghost use Rattle.rbd_kinds.specs.declared.operation.Op.{Op};
ghost use Rattle.rbd_kinds.specs.declared.reply.Reply.{Reply};
ghost use Rattle.rbd_kinds.specs.declared.reply.Reply.TheVariants.{Done};
ghost use Rattle.rbd_kinds.specs.declared.sharing.Sharing.TheVariants.{Alone};
ghost use Rattle.rbd_kinds.specs.States.{state_at};
ghost use Rattle.rbd_machine.specs.Knowledge.{Knowledge, nothing_known, own_of};
ghost use Rattle.rbd_machine.specs.Label.{Label};
ghost use Rattle.rbd_machine.specs.Lawful.{IsLawful};
ghost use Rattle.rbd_machine.specs.Path.{Answered, IsBounded, IsWalk};
ghost use Rattle.rbd_machine.specs.Plan.{Plan, Goto, Return, IsClosed};
ghost use Rattle.rbd_machine.specs.Refused.{AreGiven};
ghost use Rattle.rbd_meaning.specs.Removals.{RemoveMeans, RemovesImage, link_of, removal, used_objects};
ghost use Rattle.rbd_image.specs.RemovalPart.{IsRemoved};
ghost use Rattle.rbd_image.specs.Remnants.{ops_of, remnants};
ghost use Rattle.rbd_image.specs.Remove.{removal_plan, remove_each, remove_image, remove_plan};
ghost use Rattle.rbd_image.specs.Told.{AreJournalless, FindJournals, objects_told};

/// Each thing that is removed takes one operation. An image consists of five things at most, its
/// snapshots' maps, and the objects in use by the bits of its head's map. So an `rm` has at most
/// eleven operations, and one for each object in use by the bits that it is told.
pub fn removals_are_bounded()
    ensures each { (site : SiteId) (ops : List Op) (next : Plan) (n : ℕ)
        → IsBounded next n → IsBounded (remove_each site ops next) (n + length ops) }
    ensures few { (image : ℕ) (h : HeaderView) (bits : List ℕ)
        → length (removal image h bits) ≤ 5 + length h.snaps + length (used_objects bits) }
    ensures part { (site : SiteId) (image : ℕ) (h : HeaderView) (feds : List Fed) (steps : List Answered) (last : Plan)
        → IsWalk Goto (removal_plan site image h (Return Done)) feds steps last
        → length steps ≤ 6 + length h.snaps + objects_told steps }
    ensures request { (site : SiteId) (session : ℕ) (name : List ℕ) (feds : List Fed)
        (steps : List Answered) (last : Plan)
        → IsWalk Goto (remove_image site session name) feds steps last → length steps ≤ 11 + objects_told steps }
{}

/// The removal of an image asks only for what it may where the image is its own, alone, by a header
/// that lists no snapshot and tells neither a parent nor a journal, and where what comes next does
/// so whatever is known. An `rm` begins with no knowledge and asks only for what it may, as long as
/// no header that it is told has a parent or a journal.
pub fn removals_are_lawful()
    ensures part { (at : Label → Knowledge) (k : Knowledge) (site : SiteId) (image : ℕ) (h : HeaderView) (next : Plan)
        → own_of k.owns site image ≡ Some (record { site = site; image = image; sharing = Alone; header = Some h })
        → h.snaps ≡ [] → link_of h ≡ None → h.journal ≡ false
        → ((k : Knowledge) → IsLawful at k next) → IsLawful at k (removal_plan site image h next) }
    ensures request { (at : Label → Knowledge) (site : SiteId) (session : ℕ) (command : Command)
        → IsLawful at nothing_known (remove_plan site session command) }
{}

/// A removal begins no part again, unless what comes next does.
pub fn plans_go_to_no_label()
    ensures part { (labels : Label → Plan) (site : SiteId) (image : ℕ) (h : HeaderView) (next : Plan)
        → IsClosed labels next → IsClosed labels (removal_plan site image h next) }
    ensures request { (site : SiteId) (session : ℕ) (command : Command)
        → IsClosed Goto (remove_plan site session command) }
{}

/// A removal that is done has removed all that the image was, by its header and the states of its
/// head's map. Before an `rm` that is done, two looks at the header and at the watchers refused
/// nothing.
pub fn images_are_removed_whole()
    ensures part { (site : SiteId) (image : ℕ) (h : HeaderView) (feds : List Fed) (steps : List Answered)
        → IsWalk Goto (removal_plan site image h (Return Done)) feds steps (Return Done)
        → IsRemoved site image h steps }
    ensures request { (site : SiteId) (session : ℕ) (name : List ℕ) (feds : List Fed) (steps : List Answered)
        → IsWalk Goto (remove_image site session name) feds steps (Return Done) → RemovesImage site session name steps }
{}

/// The objects in use by the bits of a map are those whose state there isn't 0, ascending.
pub fn used_objects_are_those_in_use()
    ensures states { (bits : List ℕ) (object : ℕ) → Contains (used_objects bits) object ↔ (state_at bits object ≢ 0) }
    ensures ascending { (bits : List ℕ) → IsStrictlyIncreasing (used_objects bits) }
{}

/// The list of a removal holds the operations of a whole one, in order.
pub fn remnants_are_all()
    ensures { (image : ℕ) (h : HeaderView) (bits : List ℕ)
        → ops_of image (remnants (link_of h) h.snaps h.journal bits) ≡ removal image h bits }
{}

/// What each reply of an `rm` means: done where all went that the image was, and refused by the
/// answer to the last operation, where those before were looks or the first ones of a whole
/// removal. It is answered as who owns the image is, and finds the journal that it removes: so it
/// is where no header tells one. (That the journal of an image is there isn't said of answers yet.)
pub fn replies_are_meant()
    ensures found { (site : SiteId) (session : ℕ) (name : List ℕ) (feds : List Fed) (steps : List Answered)
        (reply : Reply)
        → AreGiven steps → FindJournals steps → IsWalk Goto (remove_image site session name) feds steps (Return reply)
        → RemoveMeans site session name steps reply }
    ensures without { (site : SiteId) (session : ℕ) (name : List ℕ) (feds : List Fed) (steps : List Answered)
        (reply : Reply)
        → AreGiven steps → AreJournalless steps → IsWalk Goto (remove_image site session name) feds steps (Return reply)
        → RemoveMeans site session name steps reply }
{}
