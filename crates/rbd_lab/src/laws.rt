//! What follows for each run: each law is the contract of a function that does nothing.
ghost use Rattle.std.specs.Prelude.{◌≡◌, ℕ, List};
ghost use Rattle.rbd_lab.specs.Output.{IsSummed, TellsAWorld};
ghost use Rattle.rbd_lab.specs.Run.{Devices, IsDoneOrRefused, IsRun, IsUnhindered};
ghost use Rattle.rbd_lab.specs.declared.run.Status.{Status};
ghost use Rattle.rbd_script.specs.declared.script.Script.{Script};
ghost use Rattle.rbd_words.specs.declared.asked.Mode.{Mode};
ghost use Rattle.rbd_words.specs.declared.load.Load.{Load};

use rbd_edge::Source;

/// A run is done, or is refused memory, where the words are understood, no device counted a fault
/// in the run and, where a script is to be read, the source shows one of built forms. So no other
/// end is left to a run that nothing outside hinders.
pub fn runs_end_done<S: Source>()
    ensures { (words : List (List ℕ)) (status : Status) (source source' : S) (old new : Devices)
        → IsRun words status source source' old new → IsUnhindered words old new → IsDoneOrRefused status }
{}

/// A script has one text as replies and one as a trace, and a load has one summary: the words and
/// the source alone tell what is printed with status 0.
pub fn scripts_have_one_text()
    ensures told { (mode : Mode) (script : Script) (one other : List ℕ)
        → TellsAWorld mode script one → TellsAWorld mode script other → one ≡ other }
    ensures summed { (load : Load) (one other : List ℕ) → IsSummed load one → IsSummed load other → one ≡ other }
{}
