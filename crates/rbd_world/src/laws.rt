//! What holds of every world: each law is the contract of a function that does nothing.
ghost use Rattle.std.specs.Prelude.{◌≡◌, ◌≢◌, ◌⊎◌, ℕ, ◌+◌, ◌*◌, ◌≤◌, ◌++◌, ◌∷◌, [], List, Option, true, false, Some, count_by};
ghost use Rattle.rbd_client.specs.Client.{ClientView};
ghost use Rattle.rbd_client.specs.Seen.{as_is};
ghost use Rattle.rbd_session.specs.Close.{unwatch};
ghost use Rattle.rbd_interference.specs.Exact.{AreExact};
ghost use Rattle.rbd_kinds.specs.declared.answer.Answer.{Answer as Word};
ghost use Rattle.rbd_kinds.specs.declared.header.HeaderView.{HeaderView};
ghost use Rattle.rbd_kinds.specs.declared.id.Instance.{Instance as Who};
ghost use Rattle.rbd_kinds.specs.declared.id.SiteId.{SiteId as Which};
ghost use Rattle.rbd_kinds.specs.declared.reply.Reply.{Reply as Told};
ghost use Rattle.rbd_lock.specs.Locks.{lock_state_at};
ghost use Rattle.rbd_machine.specs.Path.{Answered};
ghost use Rattle.rbd_machine.specs.Plan.{Standing};
ghost use Rattle.rbd_lock.specs.Counts.{is_counted, is_fence, is_round, is_take_step};
ghost use Rattle.rbd_lock.specs.Order.{EndsWith};
ghost use Rattle.rbd_lock.specs.Steps.{fenced, lock_break, lock_drop, lock_take, released_lock};
ghost use Rattle.rbd_site.specs.Records.{object_at};
ghost use Rattle.rbd_site.specs.Step.{is_fenced};
ghost use Rattle.rbd_watch.specs.Watching.{watches};
ghost use Rattle.rbd_world.specs.Events.{AreCallsOf};
ghost use Rattle.rbd_world.specs.Late.{comes_among, is_late, is_stopped_among};
ghost use Rattle.rbd_world.specs.LetGo.{HasDropped};
ghost use Rattle.rbd_world.specs.Order.{IsWriterOf, WritesFirst, found_before};
ghost use Rattle.rbd_world.specs.Owning.{owns_in};
ghost use Rattle.rbd_world.specs.Owing.{HasNoHindrance, has_worked};
ghost use Rattle.rbd_world.specs.Run.{Did, Happening, House, Itself, OnWay, Operation, comes_of, records_after, step_of, way_of};
ghost use Rattle.rbd_world.specs.Sound.{IsInSlot, IsNewWorld, IsOpen, IsRight, IsRunning, IsSoundWorld, StandsAtLook};
ghost use Rattle.rbd_world.specs.Step.{Does, DoesAtSites, DropsWhatItMay, IsBuiltEvent, IsSoundIf, IsUndone, MayCome, WantsWhatItMay, happening};
ghost use Rattle.rbd_world.specs.Watched.{has_watched, keeps_watch, has_watch_ended, watch_expired};
ghost use Rattle.rbd_world.specs.Ways.{AreAWay, AsksNext, IsOfRelease, IsOver, WasRefused};
ghost use Rattle.rbd_world.specs.World.{WorldView, client_in, late_at, records_in};
ghost use Rattle.rbd_world.specs.declared.event.Call.{Call};
ghost use Rattle.rbd_world.specs.declared.event.Event.{Event};

/// A new world is sound.
pub fn worlds_begin_sound()
    ensures { (w : WorldView Standing) → IsNewWorld w → IsSoundWorld as_is w }
{}

/// A sound world stays sound, whatever event comes.
pub fn steps_keep_worlds_sound()
    ensures { (e : Event) (old new : WorldView Standing) → IsSoundWorld as_is old → IsBuiltEvent e
        → Does as_is e (happening as_is e old) old new
        → DoesAtSites (happening as_is e old) old.sites new.sites
        → ((session : ℕ) → IsSoundIf as_is (client_in session new.lives))
        → IsSoundWorld as_is new }
{}

/// Behind any list of events the world is sound: so its calls, history, logs and mail are those of
/// one run, of which all holds that [`steps_keep_worlds_sound`] keeps.
pub fn lists_of_events_are_runs()
    ensures { (calls : List Call) (old new : WorldView Standing) → IsSoundWorld as_is old
        → AreCallsOf as_is calls old new → IsSoundWorld as_is new }
{}

/// A step that is refused memory leaves the world sound.
pub fn refused_steps_leave_worlds_sound()
    ensures { (old new : WorldView Standing) → IsSoundWorld as_is old → IsUndone as_is old new
        → ((session : ℕ) → IsSoundIf as_is (client_in session new.lives))
        → IsSoundWorld as_is new }
{}

/// In a sound world a slot that may go on wants an operation that may be done at its site, and that
/// can be given the answer which the site has for it. So it is with what a stopped life may still
/// send. A lock is dropped only where no request of its client relies on it.
pub fn what_is_wanted_may_be_done()
    ensures wanted { (w : WorldView Standing) (session slot : ℕ) (c : ClientView Standing)
        → IsSoundWorld as_is w → client_in session w.lives ≡ Some c → WantsWhatItMay as_is w.sites slot c }
    ensures late { (w : WorldView Standing) (session slot : ℕ) → IsSoundWorld as_is w
        → MayCome w.sites (late_at session slot w.lives) }
    ensures drops { (w : WorldView Standing) (session slot : ℕ) (c : ClientView Standing)
        → IsSoundWorld as_is w → client_in session w.lives ≡ Some c → DropsWhatItMay as_is slot c }
{}

/// Of two `write`, `fill` or `discard` requests of one instance, the one that found an image first
/// changes each of its objects first: wherever in the run it changes an object, the other one
/// hasn't changed that object yet.
pub fn writes_keep_their_order()
    ensures { (w : WorldView Standing) (sound : IsSoundWorld as_is w) (who : Who) (one other : ℕ) (s : Which)
        (image number : ℕ)
        → IsWriterOf who one sound.told.run → IsWriterOf who other sound.told.run
        → found_before one other s image sound.told.run ≡ true
        → WritesFirst one other s image number sound.told.run }
{}

/// A line that was begun, has no reply yet and isn't lost is in a slot of a session, and goes on by
/// the polls of that slot.
pub fn open_lines_are_in_slots()
    ensures { (w : WorldView Standing) (sound : IsSoundWorld as_is w) (line : ℕ) → IsOpen line sound.told.run
        → IsInSlot line w.lives }
{}

/// As long as nobody is stopped or fenced, the object maps of an image at rest tell exactly which
/// objects exist: at each view, the head or a snapshot, the state is 1 where the object exists, and
/// 0 where it doesn't. At rest is an image on which no line has worked that has no reply yet.
pub fn maps_are_exact_at_rest()
    ensures { (w : WorldView Standing) (sound : IsSoundWorld as_is w) (s : Which) (image : ℕ) (h : HeaderView)
        → HasNoHindrance sound.told.run → (records_in s w.sites).headers image ≡ Some h
        → ((line : ℕ) → IsOpen line sound.told.run → has_worked line s image sound.told.run ≡ false)
        → AreExact h ((records_in s w.sites).maps image) (object_at (records_in s w.sites) image) }
{}

/// An operation is done by the latest life of its session, which runs, unless it was sent by a
/// stopped life before its stop.
pub fn only_lives_that_run_act()
    ensures { (homes : ℕ → Which) (o : Operation) (reply : Option Told) (run : List Happening)
        → IsRight homes (Did o reply ∷ run) → is_late o.by ≡ false → IsRunning o.instance run }
{}

/// What a slot of a stopped life had sent comes at most once before the session is stopped again.
pub fn late_operations_come_once()
    ensures { (homes : ℕ → Which) (session slot : ℕ) (o : Operation) (reply : Option Told) (run more : List Happening)
        → comes_of session slot o.instance o.by ≡ true → is_stopped_among session more ≡ false
        → IsRight homes (more ++ (Did o reply ∷ run)) → comes_among session slot more ≡ false }
{}

/// The operations of a line on its way to the lock of its image, with their answers, are a way, to
/// its end or to where it stands: each is the one that the way asks for after the answers before.
/// So a lock is broken only directly behind the fence of its owner; the lock is asked for once, and
/// once more for each round; and beside the steps that ask again there are at most one watch, two
/// operations for each owner that was fenced, and one that ends the way.
pub fn ways_lead_to_locks()
    ensures ways { (w : WorldView Standing) (sound : IsSoundWorld as_is w) (line : ℕ)
        → AreAWay (way_of line sound.told.run) }
    ensures broken { (w : WorldView Standing) (sound : IsSoundWorld as_is w) (line image : ℕ) (owner : Who) (s : Which)
        (a : Word) (before after : List Answered)
        → way_of line sound.told.run ≡ before ++ record { site = s; op = lock_break image owner; answer = a } ∷ after
        → EndsWith (fenced s owner) before }
    ensures takes { (w : WorldView Standing) (sound : IsSoundWorld as_is w) (line : ℕ)
        → count_by is_take_step (way_of line sound.told.run) ≤ 1 + count_by is_round (way_of line sound.told.run) }
    ensures all { (w : WorldView Standing) (sound : IsSoundWorld as_is w) (line : ℕ)
        → count_by is_counted (way_of line sound.told.run) ≤ 2 + 2 * count_by is_fence (way_of line sound.told.run) }
{}

/// At each place of a run an operation on the way of a line is the one that its way asks for there,
/// while the line's command stands at its look under the lock; where the operation refuses the
/// line, the way is refused. An operation of the command itself comes only where its way wasn't
/// begun, or has led to the lock. A house lets locks go, and does nothing else.
pub fn operations_come_in_their_turn()
    ensures asked { (homes : ℕ → Which) (line : ℕ) (o : Operation) (reply : Option Told) (run : List Happening)
        → IsRight homes (Did o reply ∷ run) → o.by ≡ OnWay line → AsksNext o.site o.op (way_of line run) }
    ensures look { (homes : ℕ → Which) (line : ℕ) (o : Operation) (reply : Option Told) (run : List Happening)
        → IsRight homes (Did o reply ∷ run) → o.by ≡ OnWay line → StandsAtLook homes line o.site run }
    ensures refused { (homes : ℕ → Which) (line : ℕ) (o : Operation) (reply : Told) (run : List Happening)
        → IsRight homes (Did o (Some reply) ∷ run) → o.by ≡ OnWay line
        → WasRefused o.site reply (way_of line run ++ step_of o ∷ []) }
    ensures itself { (homes : ℕ → Which) (line : ℕ) (o : Operation) (reply : Option Told) (run : List Happening)
        → IsRight homes (Did o reply ∷ run) → o.by ≡ Itself line → IsOver (way_of line run) }
    ensures house { (homes : ℕ → Which) (o : Operation) (reply : Option Told) (run : List Happening)
        → IsRight homes (Did o reply ∷ run) → o.by ≡ House → IsOfRelease o.op }
{}

/// A house tells that a lock was let go only after its own drop of that lock was done: it did
/// nothing since, and its life went on. It drops no further lock while it has one to tell of.
pub fn a_house_tells_only_behind_its_own_drop()
    ensures tells { (homes : ℕ → Which) (o : Operation) (reply : Option Told) (run : List Happening) (image : ℕ)
        → IsRight homes (Did o reply ∷ run) → o.by ≡ House → o.op ≡ released_lock image
        → HasDropped o.instance o.site image run }
    ensures drops { (homes : ℕ → Which) (o : Operation) (reply : Option Told) (run : List Happening) (image : ℕ)
        → IsRight homes (Did o reply ∷ run) → o.by ≡ House → o.op ≡ lock_drop image → (s : Which) (other : ℕ)
        → HasDropped o.instance s other run → ⊥ }
{}

/// Who takes the lock of an image has watched the image in this life, by a `watch` that was done,
/// and hasn't ended the watch itself since. So the owner of a lock watches the image, unless the
/// store ended its watch since then: the owner never ends it itself, and with the header there is
/// no owner.
pub fn an_owner_watches_its_image()
    ensures takes { (homes : ℕ → Which) (o : Operation) (reply : Option Told) (run : List Happening) (image : ℕ)
        → IsRight homes (Did o reply ∷ run) → o.op ≡ lock_take image → keeps_watch o.instance o.site image run ≡ true }
    ensures watched { (homes : ℕ → Which) (run : List Happening) (s : Which) (image : ℕ) (h : HeaderView) (who : Who)
        → IsRight homes run → (records_after s run).headers image ≡ Some h → h.owner ≡ Some who
        → has_watched who s image run ≡ true }
    ensures watches { (homes : ℕ → Which) (run : List Happening) (s : Which) (image : ℕ) (h : HeaderView) (who : Who)
        → IsRight homes run → (records_after s run).headers image ≡ Some h → h.owner ≡ Some who
        → (watches who ((records_after s run).watchers image) ≡ true) ⊎ (watch_expired who s image run ≡ true) }
    ensures unwatches { (homes : ℕ → Which) (o : Operation) (reply : Option Told) (run : List Happening) (image : ℕ)
        (h : HeaderView)
        → IsRight homes (Did o reply ∷ run) → o.op ≡ unwatch image → (records_after o.site run).headers image ≡ Some h
        → h.owner ≢ Some o.instance }
{}

/// A watch lasts: among those who watch an image are just the instances that have watched it and
/// whose watch wasn't ended since.
pub fn watches_last()
    ensures lasts { (homes : ℕ → Which) (run : List Happening) (s : Which) (image : ℕ) (who : Who)
        → IsRight homes run → has_watched who s image run ≡ true → has_watch_ended who s image run ≡ false
        → watches who ((records_after s run).watchers image) ≡ true }
    ensures was { (homes : ℕ → Which) (run : List Happening) (s : Which) (image : ℕ) (who : Who)
        → IsRight homes run → watches who ((records_after s run).watchers image) ≡ true
        → (has_watched who s image run ≡ true) × (has_watch_ended who s image run ≡ false) }
{}

/// An instance counts a lock as its own by its own operations alone: from a take that is done to
/// the answer of a drop, or to its removal of the header. Who has a lock by the header counts it
/// so, unless it is fenced. So an instance that runs, and doesn't count a lock that it has, was
/// fenced.
pub fn owners_count_their_locks()
    ensures counts { (w : WorldView Standing) (sound : IsSoundWorld as_is w) (session : ℕ) (c : ClientView Standing)
        (s : Which) (image : ℕ)
        → client_in session w.lives ≡ Some c
        → (lock_state_at s image c.locks).owned ≡ owns_in c.session.instance s image sound.told.run }
    ensures owner { (homes : ℕ → Which) (run : List Happening) (s : Which) (image : ℕ) (h : HeaderView) (who : Who)
        → IsRight homes run → (records_after s run).headers image ≡ Some h → h.owner ≡ Some who
        → is_fenced (records_after s run) who ≡ false → owns_in who s image run ≡ true }
    ensures fenced { (w : WorldView Standing) (session : ℕ) (c : ClientView Standing) (s : Which) (image : ℕ)
        (h : HeaderView)
        → IsSoundWorld as_is w → client_in session w.lives ≡ Some c
        → (records_in s w.sites).headers image ≡ Some h → h.owner ≡ Some c.session.instance
        → (lock_state_at s image c.locks).owned ≡ false
        → is_fenced (records_in s w.sites) c.session.instance ≡ true }
{}
