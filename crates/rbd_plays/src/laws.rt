//! How many commands have a reply at the end of a play, and how a play ends in which nobody has to
//! wait for a lock: each law is the contract of a function that does nothing.
ghost use Rattle.std.specs.Prelude.{◌<◌, ◌^◌, length};
ghost use Rattle.rbd_client.specs.Seen.{as_is};
ghost use Rattle.rbd_plays.specs.AddUp.{AddUp};
ghost use Rattle.rbd_plays.specs.OneChanger.{AreAllReplied, HasOneChanger};
ghost use Rattle.rbd_machine.specs.Plan.{Standing};
ghost use Rattle.rbd_schedule.specs.Ends.{AreOver, HasCalmed};
ghost use Rattle.rbd_schedule.specs.InOrder.{AreLinesInOrder};
ghost use Rattle.rbd_schedule.specs.Playing.{IsPlay, IsPlayable};
ghost use Rattle.rbd_script.specs.declared.script.Script.{Script};
ghost use Rattle.rbd_world.specs.World.{WorldView};

/// Where one session alone has commands that take locks, no image is quiesced and no session is
/// stopped, nobody is held up at a lock: at the end of a play each command of the script has its
/// reply. (`play` of `rbd_schedule` tells of its world that nothing goes on any more, and that it
/// has had fewer than `2^59` events.)
pub fn plays_of_one_changer_are_over()
    ensures { (script : Script) (w : WorldView Standing) → IsPlayable script → HasOneChanger script
        → IsPlay as_is script w
        → HasCalmed as_is script w → length w.calls < 2 ^ 59 → AreOver script w × AreAllReplied script w }
{}

/// In each play a command has at most one reply, and each reply is of a command of the script. So
/// the replies and the commands without one are together as many as the commands. The script's
/// lines have to be in order, as those of each script that was read are: a history tells commands
/// by their lines.
pub fn commands_add_up()
    ensures { (script : Script) (w : WorldView Standing) → AreLinesInOrder script.lines → IsPlay as_is script w
        → AddUp script.lines w.history }
{}
