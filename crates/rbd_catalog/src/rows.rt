//! The rows of commands: laws, each the contract of a function that does nothing.
ghost use Rattle.std.specs.Prelude.{◌≡◌, ◌↔◌, ℕ, Bool, true, false, List, length, Some, is_some};
ghost use Rattle.std.specs.List.{list_any};
ghost use Rattle.rbd_commands.specs.declared.command.Command.{Command};
ghost use Rattle.rbd_commands.specs.declared.command.Command.TheVariants.{Close, Quiesce, Write};
ghost use Rattle.rbd_commands.specs.Quiescing.{quiescing_of};
ghost use Rattle.rbd_kinds.specs.declared.answer.Answer.{Answer};
ghost use Rattle.rbd_kinds.specs.declared.data_op.DataOp.TheVariants as object;
ghost use Rattle.rbd_kinds.specs.declared.header.SnapContext.{SnapContext};
ghost use Rattle.rbd_kinds.specs.declared.id.SiteId.{SiteId};
ghost use Rattle.rbd_kinds.specs.declared.journal.JournalEvent.{JournalEvent};
ghost use Rattle.rbd_kinds.specs.declared.journal.JournalEvent.TheVariants as event;
ghost use Rattle.rbd_kinds.specs.declared.layout.Layout.{Layout};
ghost use Rattle.rbd_kinds.specs.declared.machine.Fed.{Fed};
ghost use Rattle.rbd_kinds.specs.declared.operation.Op.{Op};
ghost use Rattle.rbd_kinds.specs.declared.operation.Op.TheVariants.{Data};
ghost use Rattle.rbd_kinds.specs.declared.operation_kind.OpKind.{OpKind};
ghost use Rattle.rbd_kinds.specs.declared.reply.Reply.{Reply};
ghost use Rattle.rbd_kinds.specs.declared.sharing.Sharing.{Sharing};
ghost use Rattle.rbd_kinds.specs.declared.sharing.Sharing.TheVariants.{Shared};
ghost use Rattle.rbd_kinds.specs.OperationKind.{kind_of};
ghost use Rattle.rbd_layout.specs.Asked.{KeepsLimits};
ghost use Rattle.rbd_machine.specs.Path.{Answered, IsWalk};
ghost use Rattle.rbd_machine.specs.Plan.{Plan, Ask, Await, Note, Standing, without_labels};
ghost use Rattle.rbd_machine.specs.Refused.{refuses_none};
ghost use Rattle.rbd_machine.specs.Steps.{change_plan, own};
ghost use Rattle.rbd_machine.specs.Wait.{Join, Leave};
ghost use Rattle.rbd_machine.specs.declared.reason.Reason.{Reason};
ghost use Rattle.rbd_machine.specs.declared.seat.Seat.{Seat};
ghost use Rattle.rbd_meaning.specs.Named.{looks_up};
ghost use Rattle.rbd_meaning.specs.Replies.{grants};
ghost use Rattle.rbd_meaning.specs.Undone.{lets_go};
ghost use Rattle.rbd_session.specs.Close.{quiesced, unwatching};
ghost use Rattle.rbd_data.specs.Read.{is_read};
ghost use Rattle.rbd_catalog.specs.Follows.{AreNoneOf, AreOfKinds, ComesTo, Follows, FollowsFrom, Held, IsAmong, Outside};
ghost use Rattle.rbd_catalog.specs.Plans.{is_built, keeps_limits, plan_of, IsPlanFor};
ghost use Rattle.rbd_catalog.specs.Profile.{drops_a_lock, has_none_of, is_answer, profile};

/// A command is served exactly where it has a plan, of a session at one site as of each other.
pub fn what_is_served_has_a_plan()
    ensures { (seat : Seat) (c : Command) → is_built c ≡ is_some (plan_of seat c) }
{}

/// A layout and a size keep the limits exactly where the test of a `create` says so.
pub fn limits_are_tested()
    ensures { (layout : Layout) (size : ℕ) → (keeps_limits layout size ≡ true) ↔ KeepsLimits layout size }
{}

/// The request of each command follows the command's row.
pub fn commands_follow_their_rows()
    ensures { (seat : Seat) (c : Command) (s : Standing) → IsPlanFor seat c s → FollowsFrom (profile c) s }
{}

/// The name in a row is the one that its command looks up.
pub fn rows_have_the_names()
    ensures { (c : Command) → looks_up c ≡ (profile c).image }
{}

/// What a row says of quiesces is what its command does to a quiesce of its image.
pub fn rows_have_the_quiescing()
    ensures { (c : Command) → quiescing_of c ≡ (profile c).quiescing }
{}

/// A command may be answered what its row says, and nothing else, but for refusals.
pub fn rows_have_the_answers()
    ensures { (c : Command) (r : Reply) → grants c r ≡ is_answer (profile c).answers r }
{}

/// A command lets a lock go exactly where a drop of a lock is among the kinds of its row.
pub fn rows_tell_who_lets_go()
    ensures { (c : Command) → lets_go c ≡ list_any drops_a_lock (profile c).kinds }
{}

/// A request joins its image's line as the row of its command says, and stays in it to its end.
pub fn requests_stay_in_the_line_of_their_row()
    ensures joins { (seat : Seat) (c : Command) (site : SiteId) (image : ℕ) (sharing : Sharing) (next : Plan)
        → ComesTo seat c (Await (Join site image sharing) next) → (profile c).joins ≡ Some sharing }
    ensures stays { (seat : Seat) (c : Command) (site : SiteId) (image : ℕ) (next : Plan)
        → ComesTo seat c (Await (Leave site image) next) → ⊥ }
{}

/// A request notes the event of its row, and no other.
pub fn requests_note_the_event_of_their_row()
    ensures { (seat : Seat) (c : Command) (site : SiteId) (image : ℕ) (event : JournalEvent) (next : Plan)
        → ComesTo seat c (Note site image event next) → (profile c).event ≡ Some event }
{}

/// A request asks for operations of its row's kinds alone: so where a row has none of some kinds,
/// none of them is ever asked for.
pub fn only_kinds_of_the_row_are_asked_for()
    ensures kind { (seat : Seat) (c : Command) (site : SiteId) (why : Reason) (o : Op) (next : Answer → Plan)
        → ComesTo seat c (Ask site why o next) → IsAmong (kind_of o) (profile c).kinds }
    ensures none { (these : OpKind → Bool) (seat : Seat) (c : Command) (site : SiteId) (why : Reason) (o : Op)
        (next : Answer → Plan)
        → has_none_of these (profile c) ≡ true → ComesTo seat c (Ask site why o next) → these (kind_of o) ≡ false }
{}

/// Each operation that was done for a request, wherever it has come since, is of a kind of its row:
/// so where a row has none of some kinds, none of them was done.
pub fn only_kinds_of_the_row_were_done()
    ensures kind { (seat : Seat) (c : Command) (s : Standing) (feds : List Fed) (steps : List Answered) (last : Plan)
        → IsPlanFor seat c s → IsWalk s.labels s.plan feds steps last → AreOfKinds (profile c).kinds steps }
    ensures none { (these : OpKind → Bool) (seat : Seat) (c : Command) (s : Standing) (feds : List Fed)
        (steps : List Answered)
        (last : Plan)
        → has_none_of these (profile c) ≡ true → IsPlanFor seat c s → IsWalk s.labels s.plan feds steps last
        → AreNoneOf these steps }
{}

/// No request but a read goes to a label: no other begins again.
pub fn only_reads_begin_again()
    ensures { (seat : Seat) (c : Command) (s : Standing) → IsPlanFor seat c s → is_read c ≡ false
        → s ≡ without_labels s.plan }
{}

/// A quiesce that joins its line beside others doesn't follow its row.
pub fn a_quiesce_joins_alone()
    ensures { (site : SiteId) (name : List ℕ)
        → Follows (profile (Quiesce name)) Outside (change_plan site name Shared refuses_none quiesced) → ⊥ }
{}

/// Nor does a close that leaves its line before it ends its watch.
pub fn a_close_stays_in_its_line()
    ensures { (site : SiteId) (name : List ℕ) (image : ℕ)
        → Follows (profile (Close name)) Held (Await (Leave site image) (unwatching site image)) → ⊥ }
{}

/// Nor does a write that notes a discard.
pub fn a_write_notes_no_discard()
    ensures { (site : SiteId) (name : List ℕ) (image at : ℕ) (bytes : List ℕ) (next : Plan)
        → Follows (profile (Write name at bytes)) Held (Note site image (event.Discard at (length bytes)) next) → ⊥ }
{}

/// Nor does a write whose event is noted behind its first change of an object.
pub fn a_write_notes_its_event_first()
    ensures { (site : SiteId) (name : List ℕ) (image number at : ℕ) (bytes : List ℕ)
        (context : SnapContext) (next : Answer → Plan)
        → Follows (profile (Write name at bytes)) Held (own site (Data image number (object.Empty context)) next) → ⊥ }
{}
