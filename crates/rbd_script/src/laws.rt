//! What the forms mean: each law is the contract of a function that does nothing.
ghost use Rattle.std.specs.Prelude.{◌≡◌, ℕ, List, Ok};
ghost use Rattle.rbd_commands.specs.declared.command.Command.{Command};
ghost use Rattle.rbd_script.specs.declared.script.Declared.{Declared};
ghost use Rattle.rbd_script.specs.declared.script.Said.{Said};
ghost use Rattle.rbd_script.specs.Command.{command_of_tokens};
ghost use Rattle.rbd_script.specs.EventSpelling.{Declares, SpellsEvent};
ghost use Rattle.rbd_script.specs.Line.{declaration_of};
ghost use Rattle.rbd_script.specs.Schedule.{schedule_of};
ghost use Rattle.rbd_script.specs.Spelling.{IsInRange, spelling, Spells};

/// A command in range is read of the tokens that spell it, and of no others.
pub fn commands_are_spelled()
    ensures read { (c : Command) → IsInRange c → command_of_tokens (spelling c) ≡ Ok c }
    ensures spelled { (tokens : List (List ℕ)) (c : Command) → command_of_tokens tokens ≡ Ok c → Spells tokens c }
{}

/// A line of a schedule is read of the tokens that spell it, and of no others. A session is told by
/// its name.
pub fn events_are_spelled()
    ensures read { (sessions : List Declared) (tokens : List (List ℕ)) (s : Said) → SpellsEvent sessions tokens s
        → schedule_of sessions tokens ≡ Ok s }
    ensures spelled { (sessions : List Declared) (tokens : List (List ℕ)) (s : Said)
        → schedule_of sessions tokens ≡ Ok s → SpellsEvent sessions tokens s }
{}

/// A session's declaration, behind its first word, is read of the tokens that spell it, and of no
/// others.
pub fn declarations_are_spelled()
    ensures read { (sessions : List Declared) (number : ℕ) (tokens : List (List ℕ)) (d : Declared)
        → Declares sessions number tokens d → declaration_of sessions number tokens ≡ Ok d }
    ensures spelled { (sessions : List Declared) (number : ℕ) (tokens : List (List ℕ)) (d : Declared)
        → declaration_of sessions number tokens ≡ Ok d → Declares sessions number tokens d }
{}
