//! What holds of each script that is generated: each law is the contract of a function that does
//! nothing.
ghost use Rattle.std.specs.Prelude.{◌≡◌, ℕ, ◌+◌, ◌*◌, length, All, count_by};
ghost use Rattle.rbd_script.specs.declared.script.Line.{Line};
ghost use Rattle.rbd_words.specs.declared.load.Load.{Load};
ghost use Rattle.rbd_generate.specs.Generated.{generated_lines, script_of};
ghost use Rattle.rbd_generate.specs.Laws.{SaysInside, discards, fills, four_turns, makes_image, reads};
ghost use Rattle.rbd_generate.specs.Summary.{command_count};

/// A generated script has as many clients as are asked for, makes each image once, and then has as
/// many commands of each client as are asked for.
pub fn scripts_have_their_size()
    ensures clients { (load : Load) → length (script_of load).sessions ≡ load.clients }
    ensures images { (load : Load) → count_by makes_image (generated_lines load) ≡ load.clients }
    ensures commands { (load : Load)
        → command_count (generated_lines load) ≡ load.clients + load.commands * load.clients }
{}

/// Each command behind those that make the images is about some bytes inside its image: so none is
/// refused for where it is.
pub fn commands_stay_inside()
    ensures { (load : Load) → All (λ (line : Line). SaysInside line.said) (generated_lines load) }
{}

/// Of each four commands that a client has one after another one reads, one discards and two fill,
/// whatever the seed is.
pub fn of_four_commands_two_fill()
    ensures reads { (load : Load) (client turn : ℕ) → count_by reads (four_turns load client turn) ≡ 1 }
    ensures discards { (load : Load) (client turn : ℕ) → count_by discards (four_turns load client turn) ≡ 1 }
    ensures fills { (load : Load) (client turn : ℕ) → count_by fills (four_turns load client turn) ≡ 2 }
{}
