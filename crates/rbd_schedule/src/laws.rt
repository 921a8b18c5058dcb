//! What holds of each script that was read, of each session, and of each play: each law is the
//! contract of a function that does nothing.
ghost use Rattle.std.specs.Prelude.{◌≡◌, ℕ, ◌+◌, ◌^◌, ◌<◌, ◌≤◌, Bool, List, length, Ok, Some};
ghost use Rattle.rbd_client.specs.Seen.{as_is};
ghost use Rattle.rbd_machine.specs.Plan.{Standing};
ghost use Rattle.rbd_script.specs.Reading.{reading};
ghost use Rattle.rbd_script.specs.declared.script.Script.{Script};
ghost use Rattle.rbd_slots.specs.Session.{SessionView, IsSoundSession, held_in};
ghost use Rattle.rbd_slots.specs.declared.running.Occupant.{Occupant};
ghost use Rattle.rbd_world.specs.Sound.{IsSoundWorld};
ghost use Rattle.rbd_world.specs.World.{WorldView};
ghost use Rattle.rbd_schedule.specs.Ends.{HasCalmed};
ghost use Rattle.rbd_schedule.specs.Given.{given_in};
ghost use Rattle.rbd_schedule.specs.Going.{MayGo};
ghost use Rattle.rbd_schedule.specs.InOrder.{AreDeclared, AreLinesInOrder};
ghost use Rattle.rbd_schedule.specs.InTurn.{AreInTurn};
ghost use Rattle.rbd_schedule.specs.Playing.{IsPlay};

/// The numbers of a script's lines begin at 1 or later and ascend, so no two lines have the same;
/// whom a line names is declared; and there are at most 32 sessions.
pub fn scripts_are_in_order()
    ensures lines { (threads : Bool) (bytes : List ℕ) (s : Script) → reading threads bytes ≡ Ok s
        → AreLinesInOrder s.lines }
    ensures declared { (threads : Bool) (bytes : List ℕ) (s : Script) → reading threads bytes ≡ Ok s
        → AreDeclared (length s.sessions) s.lines }
    ensures sessions { (threads : Bool) (bytes : List ℕ) (s : Script) → reading threads bytes ≡ Ok s
        → length s.sessions ≤ 32 }
{}

/// In a session that has a request some request may go on: a request only waits for another one of
/// its session, and the first of a line never waits.
pub fn somebody_goes_on()
    ensures { (s : SessionView Standing) (slot : ℕ) (o : Occupant Standing) → IsSoundSession as_is s
        → held_in slot s.slots ≡ Some o → MayGo s }
{}

/// At the end of a play nothing goes on any more: each command that was begun has its reply, or is
/// lost, or is held up at a lock, or stands behind such a one in the line of its image; and where
/// nobody is held up, each command of a session that runs is over. What holds a command up is a
/// quiesce of its own session, or another instance that has the lock and watches the image. This
/// one was stopped, or has quiesced the image, or was fenced, and counts the lock as given up; or a
/// notice that asks it for the lock is lost. (A world in memory is sound and has had fewer than
/// `2^59` events: so `play` tells this of its own.)
pub fn plays_come_to_rest()
    ensures { (script : Script) (w : WorldView Standing) → IsPlay as_is script w → IsSoundWorld as_is w
        → length w.calls < 2 ^ 59 → HasCalmed as_is script w }
{}

/// The rounds that close a script are no more than the events of its play, and eight: in a round in
/// which a session runs there is an event at least, and where none runs, eight rounds end it. So in
/// a play with fewer than `2^59` events they end with eight in a row that are idle: there are
/// `2^60` and more.
pub fn closing_rounds_suffice()
    ensures rounds { (script : Script) (w : WorldView Standing) → (play : IsPlay as_is script w)
        → play.plays.closing.count ≤ length w.calls + 8 }
    ensures idle { (script : Script) (w : WorldView Standing) → (play : IsPlay as_is script w) → length w.calls < 2 ^ 59
        → play.plays.closing.idle ≡ 8 }
{}

/// In each play the commands of a session that wait for each other come one after another: one
/// without `&` begins when all before it have their replies or are lost. The script's lines have to
/// be in order, as those of each script that was read are: a history tells commands by their lines.
/// Own.
pub fn commands_take_turns()
    ensures { (script : Script) (w : WorldView Standing) → AreLinesInOrder script.lines → IsPlay as_is script w
        → (session : ℕ) → AreInTurn (given_in script.lines session) w.history }
{}
