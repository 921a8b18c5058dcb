//! What replies say of the flat-copy machine, and what fenced clients can't do: each law is the
//! contract of a function that does nothing.
ghost use Rattle.std.specs.Prelude.{◌≡◌, ◌⊎◌, ℕ, false, true, [], ◌∷◌, ◌++◌, IsTrue, List, Option, Some, map};
ghost use Rattle.rbd_client.specs.Seen.{as_is};
ghost use Rattle.rbd_kinds.specs.declared.answer.Answer.TheVariants as answer;
ghost use Rattle.rbd_kinds.specs.declared.header_op.HeaderOp.TheVariants as header;
ghost use Rattle.rbd_kinds.specs.declared.id.Instance.{Instance as Who};
ghost use Rattle.rbd_kinds.specs.declared.id.SiteId.{SiteId as Site};
ghost use Rattle.rbd_kinds.specs.declared.notice.NoticeKind.{NoticeKind};
ghost use Rattle.rbd_kinds.specs.declared.operation.Op.{Op};
ghost use Rattle.rbd_kinds.specs.declared.operation.Op.TheVariants as op;
ghost use Rattle.rbd_kinds.specs.declared.reply.Reply.{Reply};
ghost use Rattle.rbd_layout.specs.declared.types.Piece.{Piece};
ghost use Rattle.rbd_machine.specs.Objects.{data_read};
ghost use Rattle.rbd_machine.specs.Plan.{Standing};
ghost use Rattle.rbd_meaning.specs.Reads.{bytes_shown};
ghost use Rattle.rbd_catalog.specs.Profile.{profile};
ghost use Rattle.rbd_catalog.specs.Touched.{HasAtMost};
ghost use Rattle.rbd_site.specs.declared.done.Done.{Done};
ghost use Rattle.rbd_site.specs.Log.{after_all};
ghost use Rattle.rbd_site.specs.Records.{no_records};
ghost use Rattle.rbd_site.specs.Step.{is_fenced};
ghost use Rattle.rbd_stands.specs.Owned.{HasLock, IsLetGo, SomeLine, changes_image, was_done};
ghost use Rattle.rbd_world.specs.Run.{AfterStop, Asked, Happening, Operation, Did, Refused, Stopped, Waited, asked_by, fence_of, is_line_among, is_on_way, is_own, log_of, records_after, replies_to, step_of, steps_of};
ghost use Rattle.rbd_world.specs.Sound.{HasRun, IsRight, IsSoundWorld, has_ended, line_at};
ghost use Rattle.rbd_world.specs.Step.{happening};
ghost use Rattle.rbd_world.specs.Watched.{ends_watch};
ghost use Rattle.rbd_world.specs.World.{WorldView, site_in};
ghost use Rattle.rbd_world.specs.declared.event.Call.{Call};
ghost use Rattle.rbd_world.specs.declared.event.Event.TheVariants as event;
ghost use Rattle.rbd_replies.specs.Bounds.{IsStepFor, KeepsBound, StaysBelow};
ghost use Rattle.rbd_replies.specs.Fenced.{AtEachOperation, IsWithoutEffect, IsStoppedByTheFence, IsTheOwners, LeavesAll, OwnsOrNone};
ghost use Rattle.rbd_replies.specs.Home.{AreDoneAt};
ghost use Rattle.rbd_replies.specs.Logs.{IsOwnedLog};
ghost use Rattle.rbd_replies.specs.Places.{Placed, effects_of, placed_of};
ghost use Rattle.rbd_replies.specs.Reads.{IsPieceAt};
ghost use Rattle.rbd_replies.specs.Replies.{IsReplyOf, changes_no_image, only_shows};
ghost use Rattle.rbd_replies.specs.Sent.{ComesOnce, WasSent};
ghost use Rattle.rbd_replies.specs.Shown.{AreHeadersInForm};
ghost use Rattle.rbd_replies.specs.Watched.{IsAnnouncement, is_watching};
ghost use Rattle.rbd_replies.specs.Worlds.{AreRepliesOf, AreSteps, BeginsWith};

/// The operations that a line's command does itself stand at their places, in their order. Those on
/// its way to the lock of its image are kept apart (`way_of` of `rbd_world`).
pub fn operations_have_places()
    ensures { (line : ℕ) (run : List Happening) → map (λ (p : Placed). step_of p.done) (placed_of line run)
        ≡ steps_of line run }
{}

/// Each reply is the flat-copy machine's, at its place in the history: what a command did, and what
/// it shows, is what that machine has at the places of its operations. Where it goes by a header,
/// that is the one which its look was told; and what a read shows of a piece was answered where
/// this piece was read. It comes with an operation of the command, or of its way to the lock of its
/// image, where it is refused; or a command is refused without one. It is so at every place of a
/// run that is right, as that of each world is (`HasRun`).
pub fn replies_are_the_flat_machines()
    ensures done { (homes : ℕ → Site) (run : List Happening) (o : Operation) (line : ℕ) (reply : Reply) (asked : Asked)
        → IsRight homes (Did o (Some reply) ∷ run) → replies_to line (Did o (Some reply)) ≡ true
        → asked_by line run ≡ Some asked
        → IsReplyOf asked.command reply (placed_of line (Did o (Some reply) ∷ run)) }
    ensures refused { (homes : ℕ → Site) (run : List Happening) (s : Site) (line : ℕ) (reply : Reply) (asked : Asked)
        → IsRight homes (Refused s line reply ∷ run) → asked_by line run ≡ Some asked
        → IsReplyOf asked.command reply (placed_of line (Refused s line reply ∷ run)) }
{}

/// A piece that was read has one place: the operation there read it, of this image at this view, and
/// its answer shows these bytes.
pub fn pieces_have_one_place()
    ensures { (image : ℕ) (snap : Option ℕ) (piece : Piece) (bytes : List ℕ) (places : List Placed)
        (read : IsPieceAt image snap piece bytes places) → (places ≡ read.own ∷ [])
        × (read.own.done.op ≡ data_read image snap piece)
        × (bytes_shown piece.parts read.own.done.answer ≡ Some bytes) }
{}

/// A command that only shows, as `read`, `ls`, `info`, `snap ls`, `du` and `resume` do, changes
/// nothing: each operation of its line has no effect, and leaves the records of both sites, the
/// flat sites and the notices as they were. So whatever its reply is, it did nothing to the flat
/// site.
pub fn what_only_shows_changes_nothing()
    ensures each { (homes : ℕ → Site) (run : List Happening) (o : Operation) (reply : Option Reply) (line : ℕ)
        (asked : Asked)
        → IsRight homes (Did o reply ∷ run) → is_own line o.by ≡ true → asked_by line run ≡ Some asked
        → only_shows asked.command ≡ true
        → LeavesAll o reply run }
    ensures done { (homes : ℕ → Site) (run : List Happening) (o : Operation) (line : ℕ) (reply : Reply) (asked : Asked)
        → IsRight homes (Did o (Some reply) ∷ run) → replies_to line (Did o (Some reply)) ≡ true
        → asked_by line run ≡ Some asked → only_shows asked.command ≡ true
        → effects_of (placed_of line (Did o (Some reply) ∷ run)) ≡ [] }
    ensures refused { (homes : ℕ → Site) (run : List Happening) (s : Site) (line : ℕ) (reply : Reply) (asked : Asked)
        → IsRight homes (Refused s line reply ∷ run) → asked_by line run ≡ Some asked → only_shows asked.command ≡ true
        → effects_of (placed_of line (Refused s line reply ∷ run)) ≡ [] }
{}

/// A command that changes no image, as `close`, `quiesce`, `resume`, `tell` and those that only
/// show, has no effect on the flat site: not behind its reply, whatever it is, not where its line
/// is lost, and not while it is under way.
pub fn what_changes_no_image_has_no_effect()
    ensures ended { (homes : ℕ → Site) (run : List Happening) (line : ℕ) (asked : Asked)
        → IsRight homes run → asked_by line run ≡ Some asked → has_ended line run ≡ true
        → changes_no_image asked.command ≡ true
        → effects_of (placed_of line run) ≡ [] }
    ensures begun { (w : WorldView Standing) (sound : IsSoundWorld as_is w) (line : ℕ) (asked : Asked)
        → asked_by line sound.told.run ≡ Some asked → changes_no_image asked.command ≡ true
        → effects_of (placed_of line sound.told.run) ≡ [] }
{}

/// A line that is refused on its way to the lock of its image has done nothing to the flat site,
/// whatever refused it: until it looks at the header under the lock a command only looks.
pub fn what_is_refused_on_its_way_did_nothing()
    ensures { (homes : ℕ → Site) (run : List Happening) (o : Operation) (line : ℕ) (reply : Reply)
        → IsRight homes (Did o (Some reply) ∷ run) → is_on_way line o.by ≡ true
        → effects_of (placed_of line (Did o (Some reply) ∷ run)) ≡ [] }
{}

/// A command that has its reply has done all of its operations at the home of the session that began
/// it: so at each of its places the flat site is that site's.
pub fn replies_are_of_their_home()
    ensures done { (homes : ℕ → Site) (run : List Happening) (o : Operation) (line : ℕ) (reply : Reply) (asked : Asked)
        → IsRight homes (Did o (Some reply) ∷ run) → replies_to line (Did o (Some reply)) ≡ true
        → asked_by line run ≡ Some asked
        → AreDoneAt (homes asked.who.session) (placed_of line (Did o (Some reply) ∷ run)) }
    ensures refused { (homes : ℕ → Site) (run : List Happening) (s : Site) (line : ℕ) (reply : Reply) (asked : Asked)
        → IsRight homes (Refused s line reply ∷ run) → asked_by line run ≡ Some asked
        → AreDoneAt (homes asked.who.session) (placed_of line (Refused s line reply ∷ run)) }
{}

/// The command of a line that was begun has no more operations itself than its row allows
/// (`allowed`), by the number of pieces that its extent has at most: in all when it has its reply,
/// or is lost by a stop, and so far at any time before. A read has so many at most in each of its
/// passes, and began again only where its closing look was told a header of another generation, or
/// none. A resize, a rollback and an `rm` have beside these as many as they were told of objects
/// (`more_by` of `rbd_catalog`). Who waits has none: each operation is a poll's whose outcome is
/// `Step`. Operations on the way to a lock aren't counted: it asks as often as another one has the
/// lock.
pub fn lines_keep_their_bounds()
    ensures ended { (homes : ℕ → Site) (run : List Happening) (line : ℕ) (asked : Asked) (pieces : ℕ)
        → IsRight homes run → asked_by line run ≡ Some asked → has_ended line run ≡ true
        → HasAtMost pieces (profile asked.command).extent
        → KeepsBound (homes asked.who.session) asked.command pieces (steps_of line run) }
    ensures lost { (homes : ℕ → Site) (run : List Happening) (who : Who) (wanted : List (Option (Site × Op)))
        (lost : List ℕ) (line : ℕ) (asked : Asked) (pieces : ℕ)
        → IsRight homes (Stopped who wanted lost ∷ run) → is_line_among line lost ≡ true
        → asked_by line run ≡ Some asked → HasAtMost pieces (profile asked.command).extent
        → KeepsBound (homes asked.who.session) asked.command pieces (steps_of line (Stopped who wanted lost ∷ run)) }
    ensures under_way { (w : WorldView Standing) (sound : IsSoundWorld as_is w) (session slot line : ℕ) (asked : Asked)
        (pieces : ℕ)
        → line_at session slot w.lives ≡ Some line → asked_by line sound.told.run ≡ Some asked
        → HasAtMost pieces (profile asked.command).extent
        → KeepsBound (sound.told.homes asked.who.session) asked.command pieces (steps_of line sound.told.run) }
    ensures begun { (w : WorldView Standing) (sound : IsSoundWorld as_is w) (line : ℕ) (asked : Asked) (pieces : ℕ)
        → asked_by line sound.told.run ≡ Some asked → HasAtMost pieces (profile asked.command).extent
        → KeepsBound (sound.told.homes asked.who.session) asked.command pieces (steps_of line sound.told.run) }
{}

/// The command of a line that was begun, has no reply yet and isn't lost has had fewer operations
/// itself than its row allows, a read in the pass that it is in: at least one more is due. So a
/// line that has had as many as its row allows has its reply, or is lost.
pub fn open_lines_stay_below_their_bounds()
    ensures under_way { (w : WorldView Standing) (sound : IsSoundWorld as_is w) (session slot line : ℕ) (asked : Asked)
        (pieces : ℕ)
        → line_at session slot w.lives ≡ Some line → asked_by line sound.told.run ≡ Some asked
        → HasAtMost pieces (profile asked.command).extent
        → StaysBelow (sound.told.homes asked.who.session) asked.command pieces (steps_of line sound.told.run) }
    ensures open { (w : WorldView Standing) (sound : IsSoundWorld as_is w) (line : ℕ) (asked : Asked) (pieces : ℕ)
        → asked_by line sound.told.run ≡ Some asked → has_ended line sound.told.run ≡ false
        → HasAtMost pieces (profile asked.command).extent
        → StaysBelow (sound.told.homes asked.who.session) asked.command pieces (steps_of line sound.told.run) }
    ensures at_bound { (w : WorldView Standing) (sound : IsSoundWorld as_is w) (line : ℕ) (asked : Asked) (pieces : ℕ)
        → asked_by line sound.told.run ≡ Some asked → HasAtMost pieces (profile asked.command).extent
        → (StaysBelow (sound.told.homes asked.who.session) asked.command pieces (steps_of line sound.told.run) → ⊥)
        → has_ended line sound.told.run ≡ true }
{}

/// A poll of the slot that a line is in either waits, or does a step of the line: an operation of
/// its command itself, or on its way to the lock of its image; or it is refused before any. So with
/// `open_lines_stay_below_their_bounds` a line has its reply after as many polls of its slot as its
/// row allows operations, other than those that wait and those on its way. What bounds the latter,
/// but for those that ask again, is said by `ways_lead_to_locks` of `rbd_world`.
pub fn polls_are_steps_of_lines()
    ensures { (w : WorldView Standing) (session slot line : ℕ) → IsSoundWorld as_is w
        → line_at session slot w.lives ≡ Some line
        → (happening as_is (event.Poll session slot) w ≡ Waited)
        ⊎ IsStepFor line (happening as_is (event.Poll session slot) w) }
{}

/// Each reply in the history of a world, whatever events came, is the one of its line's command: it
/// says what the flat-copy machine has at its own place in the one history, by the operations of
/// the command from its start up to this very entry, and by none that came later. The entry is the
/// last one of the happening that gave the line its reply.
pub fn replies_of_worlds_are_the_flat_machines()
    ensures { (w : WorldView Standing) (told : HasRun w) → AreRepliesOf told.run w.history }
{}

/// Each header that a reply in the history of a world shows is in form, whatever events came: its
/// layout keeps the limits, and its size is below 2^63.
pub fn shown_headers_are_in_form()
    ensures { (w : WorldView Standing) → HasRun w → AreHeadersInForm w.history }
{}

/// No operation of a fenced client changes an object. At the site that has its instance in the
/// blocklist it is answered `Fenced`, whatever it is and whenever it comes, also long after the
/// session was stopped; it has no effect, and the records of both sites, the flat sites and the
/// notices stay as they were. So it is at every later place of the run (`fences_last`) from the
/// operation on that put up the fence (`fences_are_told`).
pub fn fenced_clients_change_nothing()
    ensures while_fenced { (homes : ℕ → Site) (run : List Happening) (o : Operation) (reply : Option Reply)
        → IsRight homes (Did o reply ∷ run) → is_fenced (records_after o.site run) o.instance ≡ true
        → IsWithoutEffect o reply run }
    ensures since_the_fence { (homes : ℕ → Site) (run later : List Happening) (fence o : Operation)
        (was reply : Option Reply)
        → IsRight homes (Did o reply ∷ (later ++ (Did fence was ∷ run)))
        → fence_of fence.op fence.answer ≡ Some o.instance → o.site ≡ fence.site
        → IsWithoutEffect o reply (later ++ (Did fence was ∷ run)) }
{}

/// An instance that is fenced at a site stays so at every later place of the run: nothing takes it
/// out of a blocklist.
pub fn fences_last()
    ensures { (site : Site) (who : Who) (later run : List Happening)
        → is_fenced (records_after site run) who ≡ true → is_fenced (records_after site (later ++ run)) who ≡ true }
{}

/// An instance that the history tells as fenced at a site is fenced there.
pub fn fences_are_told()
    ensures { (homes : ℕ → Site) (run : List Happening) (o : Operation) (reply : Option Reply) (who : Who)
        → IsRight homes (Did o reply ∷ run) → fence_of o.op o.answer ≡ Some who
        → is_fenced (records_after o.site (Did o reply ∷ run)) who ≡ true }
{}

/// Who changed the data, the header, an object map or the journal of an image had the lock of the
/// image there, by its header; and the lock of an instance was broken only once the instance was
/// fenced at that site. A header is made before anybody can own it, and so is the first map of an
/// image, before its header: by the command that drew the image's id, which never had a header.
/// What is left of an image whose header was removed, its objects and its maps, goes without a lock
/// too, since there is none any more: by the command that removed the header. Of an operation that
/// a stopped life had sent this is said of the command of a line that was lost by the life's stop,
/// which stood there at just this operation. What is done to a lock, to those that watch and to
/// what they are told changes no image.
pub fn changes_are_the_owners()
    ensures owned { (homes : ℕ → Site) (run : List Happening) (o : Operation) (reply : Option Reply) (image : ℕ)
        → IsRight homes (Did o reply ∷ run) → changes_image image o.op ≡ true → was_done o.answer ≡ true
        → OwnsOrNone homes image o run }
    ensures broken { (homes : ℕ → Site) (run : List Happening) (o : Operation) (reply : Option Reply) (image : ℕ)
        (owner : Who)
        → IsRight homes (Did o reply ∷ run) → o.op ≡ op.Header image (header.LockBreak owner) → o.answer ≡ answer.Done
        → is_fenced (records_after o.site run) owner ≡ true }
{}

/// In each world, whatever events came: an operation of an instance that is fenced at its site
/// changes nothing; who changes an image that has a header has its lock; and no lock is broken
/// whose owner isn't fenced.
pub fn fences_and_locks_hold_in_worlds()
    ensures fences { (w : WorldView Standing) (told : HasRun w) → AtEachOperation IsStoppedByTheFence told.run }
    ensures locks { (w : WorldView Standing) (told : HasRun w) → AtEachOperation (IsTheOwners told.homes) told.run }
{}

/// The log of each site is an owned one, whatever events came: each line was answered by the
/// records that the lines before it left, each change of an image that has a header is by the owner
/// of its lock, and a lock is broken only where its owner is fenced. So all that `rbd_stands` says
/// of such logs holds of the printed ones.
pub fn logs_are_owned()
    ensures run { (homes : ℕ → Site) (s : Site) (run : List Happening) → IsRight homes run → IsOwnedLog (log_of s run) }
    ensures world { (w : WorldView Standing) → HasRun w → (s : Site) → IsOwnedLog (site_in s w.sites).log }
{}

/// An owner loses its lock only by its own operation or by a fence: who has a lock at one place of
/// a site's log has it at each later one, unless he dropped it in between, removed the header with
/// it, or was fenced there.
pub fn who_lost_a_lock_was_fenced()
    ensures { (before since : List Done) (image : ℕ) (me : Who) → IsOwnedLog (before ++ since)
        → HasLock image me (after_all no_records before)
        → HasLock image me (after_all no_records (before ++ since))
        ⊎ (SomeLine (IsLetGo image me) since ⊎ IsTrue (is_fenced (after_all no_records (before ++ since)) me)) }
{}

/// What a session had sent when it was stopped comes once, and as it was sent: where an operation
/// comes late, the last stop of its session was that of its own instance, just this operation is
/// what its slot wanted then, and nothing of the slot has come since. It ends no line. And it is
/// the next one, there, of a line that was lost by the stop, of that line's way to the lock, or,
/// from slot 0, of the house, which lets locks go. No two slots of a stop had sent for one line.
pub fn late_operations_were_sent_once()
    ensures sent { (homes : ℕ → Site) (run : List Happening) (o : Operation) (reply : Option Reply) (slot : ℕ)
        → IsRight homes (Did o reply ∷ run) → o.by ≡ AfterStop slot → WasSent homes slot o reply run }
    ensures worlds { (w : WorldView Standing) (told : HasRun w) → AtEachOperation (ComesOnce told.homes) told.run }
{}

/// Nobody ends the watch of another session, unless with the image. Where an instance watched an
/// image before something happened and doesn't after it, it ended the watch itself, or the store
/// let the watch expire, or the owner of the image's lock removed the header.
pub fn watches_end_by_themselves()
    ensures ends { (homes : ℕ → Site) (run : List Happening) (h : Happening) (who : Who) (s : Site) (image : ℕ)
        → IsRight homes (h ∷ run) → is_watching who s image run ≡ true → is_watching who s image (h ∷ run) ≡ false
        → ends_watch who s image h ≡ true }
    ensures removed { (homes : ℕ → Site) (run : List Happening) (o : Operation) (reply : Option Reply) (who : Who)
        (s : Site) (image : ℕ)
        → IsRight homes (Did o reply ∷ run) → is_watching who s image run ≡ true
        → is_watching who s image (Did o reply ∷ run) ≡ false
        → o.op ≡ op.Header image header.Remove → HasLock image o.instance (records_after s run) }
{}

/// An operation that only tells something to those who watch changes nothing but the notices: both
/// sites' records and their flat sites stay as they were.
pub fn what_is_told_changes_no_site()
    ensures { (homes : ℕ → Site) (run : List Happening) (o : Operation) (reply : Option Reply) (image : ℕ)
        (kind : NoticeKind)
        → IsRight homes (Did o reply ∷ run) → o.op ≡ op.Header image (header.Notify kind)
        → IsAnnouncement o reply run }
{}

/// The calls are the events that came, each with its outcome, one after another; and what the
/// history has stays as it is.
pub fn events_are_told_one_by_one()
    ensures calls { (calls : List Call) (old new : WorldView Standing) → AreSteps as_is calls old new
        → new.calls ≡ old.calls ++ calls }
    ensures history { (calls : List Call) (old new : WorldView Standing) → AreSteps as_is calls old new
        → BeginsWith old.history new.history }
{}
