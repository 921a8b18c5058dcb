//! What comes of twins: laws, each the contract of a function that does nothing.
ghost use Rattle.std.specs.Prelude.{◌≡◌, ℕ, List, length, Bool};
ghost use Rattle.rbd_client.specs.Seen.{as_is};
ghost use Rattle.rbd_kinds.specs.declared.id.SiteId.{SiteId};
ghost use Rattle.rbd_machine.specs.Plan.{Standing};
ghost use Rattle.rbd_plays.specs.Twins.{AreTwins};
ghost use Rattle.rbd_schedule.specs.Notices.{is_notice_due, runs};
ghost use Rattle.rbd_schedule.specs.Schedule.{is_held};
ghost use Rattle.rbd_schedule.specs.Slots.{AreClientsCounted};
ghost use Rattle.rbd_schedule.specs.Starts.{to_start};
ghost use Rattle.rbd_schedule.specs.declared.given.Given.{Given};
ghost use Rattle.rbd_world.specs.Events.{IsCallOf};
ghost use Rattle.rbd_world.specs.Sound.{AreAtHome, IsNewWorld, line_at};
ghost use Rattle.rbd_world.specs.Step.{IsBuiltEvent, IsWorldStep, happening};
ghost use Rattle.rbd_world.specs.World.{WorldView, client_in, kind_in};
ghost use Rattle.rbd_world.specs.declared.event.Call.{Call};
ghost use Rattle.rbd_world.specs.declared.event.Event.{Event};
ghost use Rattle.rbd_world.specs.declared.event.Outcome.{Outcome};

/// New worlds of the same homes can't be told apart.
pub fn new_worlds_are_twins()
    ensures { (homes : List SiteId) (v w : WorldView Standing) → IsNewWorld v → IsNewWorld w
        → AreAtHome homes v.lives → AreAtHome homes w.lives → AreTwins as_is v w }
{}

/// An event does the same to worlds that can't be told apart.
pub fn events_do_the_same()
    ensures { (e : Event) (v w : WorldView Standing) → AreTwins as_is v w → happening as_is e w ≡ happening as_is e v }
{}

/// A step of one and the same event has one outcome in worlds that can't be told apart, and leaves
/// worlds that can't be told apart, where the clients that it leaves are counted. These have one
/// lowest free slot and one list of images whose locks were asked for, which a step alone doesn't
/// tell. A command that isn't built is ruled out. Calls leave such clients.
pub fn steps_have_one_outcome()
    ensures steps { (e : Event) (v w x y : WorldView Standing) (a b : Outcome) → IsBuiltEvent e → AreTwins as_is v w
        → IsWorldStep as_is e v a x → IsWorldStep as_is e w b y
        → AreClientsCounted x → AreClientsCounted y → (a ≡ b) × AreTwins as_is x y }
    ensures calls { (c d : Call) (v w x y : WorldView Standing) → c.event ≡ d.event → AreTwins as_is v w
        → IsCallOf as_is c v x → IsCallOf as_is d w y → (c ≡ d) × AreTwins as_is x y }
{}

/// What a schedule reads of worlds that can't be told apart is the same.
pub fn schedules_read_the_same()
    ensures starts { (v w : WorldView Standing) → AreTwins as_is v w → (given : List Given) (session : ℕ)
        → to_start given w session ≡ to_start given v session }
    ensures kinds { (v w : WorldView Standing) → AreTwins as_is v w → (session slot : ℕ)
        → kind_in as_is slot (client_in session w.lives) ≡ kind_in as_is slot (client_in session v.lives) }
    ensures lines { (v w : WorldView Standing) → AreTwins as_is v w → (session slot : ℕ)
        → line_at session slot w.lives ≡ line_at session slot v.lives }
    ensures held { (v w : WorldView Standing) → AreTwins as_is v w → (session slot : ℕ)
        → is_held session slot w ≡ is_held session slot v }
    ensures runs { (v w : WorldView Standing) → AreTwins as_is v w → (session : ℕ) → runs session w ≡ runs session v }
    ensures due { (v w : WorldView Standing) → AreTwins as_is v w → (lost : (number : ℕ) → Bool) (session number : ℕ)
        → is_notice_due lost session number w ≡ is_notice_due lost session number v }
    ensures mail { (v w : WorldView Standing) → AreTwins as_is v w → length w.sites.mail ≡ length v.sites.mail }
{}
