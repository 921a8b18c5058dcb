//! A script has one run: the law is the contract of a function that does nothing.
ghost use Rattle.rbd_client.specs.Seen.{as_is};
ghost use Rattle.rbd_machine.specs.Plan.{Standing};
ghost use Rattle.rbd_plays.specs.OneRun.{IsSameRun};
ghost use Rattle.rbd_schedule.specs.Playing.{IsPlay};
ghost use Rattle.rbd_script.specs.declared.script.Script.{Script};
ghost use Rattle.rbd_world.specs.World.{WorldView};

/// A script has one run: in any two worlds to which its schedule led, the same events came with the
/// same outcomes, and the histories, the logs of both sites and their mail are equal.
pub fn scripts_have_one_run()
    ensures { (script : Script) (v w : WorldView Standing)
        → IsPlay as_is script v → IsPlay as_is script w → IsSameRun v w }
{}
