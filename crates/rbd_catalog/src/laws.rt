//! What the requests of all commands keep to: laws, each the contract of a function that does
//! nothing.
ghost use Rattle.std.specs.Prelude.{◌≡◌, ℕ, ◌+◌, ◌*◌, ◌≤◌, List, [], length, Option, IsSome, Some, false, true};
ghost use Rattle.rbd_commands.specs.declared.command.Command.{Command};
ghost use Rattle.rbd_commands.specs.declared.refusal.Refusal.{Refusal};
ghost use Rattle.rbd_kinds.specs.declared.answer.Answer.{Answer};
ghost use Rattle.rbd_kinds.specs.declared.header.HeaderView.{HeaderView};
ghost use Rattle.rbd_kinds.specs.declared.header_op.HeaderOp.TheVariants.{Get};
ghost use Rattle.rbd_kinds.specs.declared.id.SiteId.{SiteId};
ghost use Rattle.rbd_kinds.specs.declared.layout.Extent.{Extent};
ghost use Rattle.rbd_kinds.specs.declared.machine.Fed.{Fed};
ghost use Rattle.rbd_kinds.specs.declared.operation.Op.TheVariants.{Header};
ghost use Rattle.rbd_kinds.specs.declared.reply.Reply.{Reply};
ghost use Rattle.rbd_kinds.specs.declared.sharing.Sharing.{Sharing};
ghost use Rattle.rbd_kinds.specs.Sharing.{is_alone};
ghost use Rattle.rbd_machine.specs.Label.{Label, Piece};
ghost use Rattle.rbd_machine.specs.Lawful.{IsLawfulRequest};
ghost use Rattle.rbd_machine.specs.OwnSteps.{AsksOwnAtMost, own_steps, owned_at};
ghost use Rattle.rbd_machine.specs.Passes.{jumps};
ghost use Rattle.rbd_machine.specs.Path.{Answered, IsWalk};
ghost use Rattle.rbd_machine.specs.Plan.{Plan, Ask, Goto, Return, Standing, IsClosed};
ghost use Rattle.rbd_machine.specs.Refused.{AreGiven};
ghost use Rattle.rbd_machine.specs.Standalone.{TellAllStandalone};
ghost use Rattle.rbd_machine.specs.Steps.{EndsIt, change_plan, not_there};
ghost use Rattle.rbd_machine.specs.declared.reason.Reason.{Reason};
ghost use Rattle.rbd_machine.specs.declared.seat.Seat.{Seat};
ghost use Rattle.rbd_machine.specs.Course.{beginning};
ghost use Rattle.rbd_machine.specs.Orderly.{IsOrderlyFrom};
ghost use Rattle.rbd_meaning.specs.Meant.{IsMeantBy};
ghost use Rattle.rbd_data.specs.Read.{is_read};
ghost use Rattle.rbd_catalog.specs.InLine.{ChangesInLine, KeepsTo, LabelsKeepTo, turn_along};
ghost use Rattle.rbd_catalog.specs.Looking.{HoldsNoMore, LooksAtItNoMore, LooksOnce};
ghost use Rattle.rbd_catalog.specs.Plans.{IsPlanFor};
ghost use Rattle.rbd_catalog.specs.Profile.{extent_beside, is_nothing, more_by, most_operations, profile};
ghost use Rattle.rbd_catalog.specs.Touched.{AsksAtMost, HasAtMost, TakesTurns};

/// Each label that the request of a command goes to stands at an operation.
pub fn commands_are_closed()
    ensures { (seat : Seat) (command : Command) (s : Standing) → IsPlanFor seat command s → IsClosed s.labels s.plan }
{}

/// The request of a command does only what it may by what it knows, and begins with nothing known
/// (`rbd_machine`).
pub fn commands_are_lawful()
    ensures { (seat : Seat) (command : Command) (s : Standing) → IsPlanFor seat command s → IsLawfulRequest s }
{}

/// A reply is meant by its command, behind the operations that were done (`IsMeantBy` of
/// `rbd_meaning`), where each answer is one that its operation can give, and no header that is told
/// has a parent or a journal. No other reply comes.
pub fn commands_are_meant()
    ensures { (seat : Seat) (command : Command) (s : Standing) (feds : List Fed) (steps : List Answered) (reply : Reply)
        → IsPlanFor seat command s → AreGiven steps → TellAllStandalone steps
        → IsWalk s.labels s.plan feds steps (Return reply) → IsMeantBy seat command steps reply }
{}

/// The request of a command keeps to its line (`rbd_machine`). A write, a fill and a discard take
/// their turns at the objects that their look under the lock tells of their extent, and no other
/// command takes any.
pub fn commands_are_orderly()
    ensures { (seat : Seat) (command : Command) (s : Standing) → IsPlanFor seat command s
        → IsOrderlyFrom (extent_beside (profile command)) true beginning s }
{}

/// The request of a command that changes an extent takes all the turns that its look under the lock
/// tells, each once, before it is done.
pub fn turns_are_those_of_the_extent()
    ensures { (seat : Seat) (command : Command) (s : Standing) (e : Extent) → IsPlanFor seat command s
        → extent_beside (profile command) ≡ Some e → TakesTurns e s }
{}

/// The number of operations of a request is bounded by the number of objects that its extent
/// touches, as the row of its command says. Each time that it begins again, as a read does, it has
/// as many once more. A resize, a rollback and an `rm` have beside these what they were told: a
/// resize three for each object with bytes from the new size on, a rollback those too and four for
/// each object of the snapshot, and an `rm` one for each object in use. In each pass it has at most
/// so many but for looks above (`own_steps` of `rbd_machine`): a clone costs what any image does,
/// and beside that looks at the images that it was cloned from, as far as their headers lead.
pub fn commands_are_bounded()
    ensures pass { (seat : Seat) (command : Command) (s : Standing) (most : ℕ)
        → IsPlanFor seat command s → is_nothing (profile command).told ≡ true → HasAtMost most (profile command).extent
        → AsksAtMost s.plan (most_operations (profile command) most) }
    ensures own { (seat : Seat) (command : Command) (s : Standing) (most : ℕ)
        → IsPlanFor seat command s → is_nothing (profile command).told ≡ true → HasAtMost most (profile command).extent
        → AsksOwnAtMost [] s.plan (most_operations (profile command) most) }
    ensures all { (seat : Seat) (command : Command) (s : Standing) (most : ℕ) (feds : List Fed) (steps : List Answered)
        (last : Plan)
        → IsPlanFor seat command s → HasAtMost most (profile command).extent → AreGiven steps
        → IsWalk s.labels s.plan feds steps last
        → length steps ≤ (1 + jumps s.labels s.plan feds) * most_operations (profile command) most + more_by
        (profile command).told steps }
    ensures first { (seat : Seat) (command : Command) (s : Standing) (most : ℕ) (feds : List Fed)
        (steps : List Answered) (last : Plan)
        → IsPlanFor seat command s → HasAtMost most (profile command).extent → AreGiven steps
        → IsWalk Goto s.plan feds steps last
        → length (own_steps [] steps) ≤ most_operations (profile command) most + more_by (profile command).told steps }
    ensures again { (seat : Seat) (command : Command) (s : Standing) (most : ℕ) (feds : List Fed)
        (steps : List Answered) (last : Plan) (label : Label)
        → IsPlanFor seat command s → HasAtMost most (profile command).extent → AreGiven steps
        → IsWalk Goto (s.labels label) feds steps last
        → length (own_steps (owned_at label) steps) ≤ most_operations (profile command) most + more_by
        (profile command).told steps }
{}

/// Where a request that isn't a read looks at a header, what isn't there and the fence end it.
pub fn looks_refuse_what_isnt_there()
    ensures { (seat : Seat) (command : Command) (s : Standing) (feds : List Fed) (steps : List Answered) (site : SiteId)
        (why : Reason) (image : ℕ) (next : Answer → Plan) (a : Answer)
        → IsPlanFor seat command s
        → is_read command ≡ false → IsWalk s.labels s.plan feds steps (Ask site why (Header image Get) next)
        → EndsIt a → next a ≡ not_there a }
{}

/// A request that isn't a read goes one way to a lock at most, and behind its look under the lock it
/// looks at that header no more. Where it looks at a header, it either waits for the lock of its
/// image next, and then looks at the header of that image first, or it waits for no lock any more,
/// and what it still looks at are headers of other images. So it is with a piece that begins again.
pub fn commands_look_once()
    ensures walk { (seat : Seat) (command : Command) (s : Standing) (feds : List Fed) (steps : List Answered)
        (last : Plan)
        → IsPlanFor seat command s → is_read command ≡ false → IsWalk s.labels s.plan feds steps last → LooksOnce last }
    ensures piece { (seat : Seat) (command : Command) (s : Standing) (site : SiteId) (image : ℕ) (h : HeaderView)
        (bits : List ℕ) (number : ℕ)
        → IsPlanFor seat command s → is_read command ≡ false
        → HoldsNoMore (s.labels (Piece site image h bits number))
        × LooksAtItNoMore site image (s.labels (Piece site image h bits number)) }
{}

/// The request of a command that changes an extent goes beside others: it looks its image up first,
/// joins the image's line, and behind that keeps to it, whatever header it is told, however
/// often it begins a piece again.
pub fn extents_change_in_line()
    ensures { (seat : Seat) (command : Command) (s : Standing) → IsPlanFor seat command s
        → IsSome (extent_beside (profile command)) → ChangesInLine seat.home s }
{}

/// A change goes through the line of its image, however often it begins a piece again, where each
/// piece of that image keeps to the line from its label on, with the turn that it has there.
pub fn changes_may_begin_pieces_again()
    ensures { (home : SiteId) (name : List ℕ) (sharing : Sharing) (refuses : HeaderView → Option Refusal)
        (act : (image : ℕ) → HeaderView → Plan) (labels : Label → Plan) (turn_at : Label → Option ℕ)
        → is_alone sharing ≡ false
        → ((image : ℕ) (h : HeaderView) (turn : Option ℕ) → KeepsTo home image turn_at turn (act image h))
        → ((image : ℕ) (h : HeaderView) (bits : List ℕ) (number : ℕ)
        → KeepsTo home image turn_at (turn_at (Piece home image h bits number)) (labels (Piece home image h bits number)))
        → ChangesInLine home (record { labels = labels; plan = change_plan home name sharing refuses act }) }
{}

/// Wherever a walk of a plan that keeps to a line stands, it keeps to the line there, at the turn
/// that it waited for last, however often it began a piece again.
pub fn walks_keep_to_their_line()
    ensures { (site : SiteId) (image : ℕ) (turn_at : Label → Option ℕ) (labels : Label → Plan) (turn : Option ℕ)
        (plan : Plan) (feds : List Fed) (steps : List Answered) (last : Plan)
        → LabelsKeepTo site image turn_at labels → KeepsTo site image turn_at turn plan
        → IsWalk labels plan feds steps last
        → KeepsTo site image turn_at (turn_along labels turn plan feds) last }
{}
