//! Plays a script, and tells the play.
ghost use Rattle.std.specs.Prelude.{◌≡◌, IfOk};
ghost use Rattle.rbd_generate.specs.Summary.{summary_text};
ghost use Rattle.rbd_text.specs.Text.{AreShown};
ghost use Rattle.rbd_schedule.specs.InOrder.{AreLinesInOrder};
ghost use Rattle.rbd_schedule.specs.Playing.{IsPlayable};
ghost use Rattle.rbd_words.specs.Load.{IsLoad};
ghost use Rattle.rbd_world.specs.Seen.{seen};
ghost use Rattle.rbd_lab.specs.Output.{text_of, told_text, IsSummed, TellsAWorld};

use rbd_flat::Entry;
use rbd_generate::{generated, summary};
use rbd_kinds::{NoMemory, SiteId};
use rbd_schedule::play;
use rbd_script::Script;
use rbd_site::Done;
use rbd_text::{replies, trace};
use rbd_words::{Load, Mode};
use rbd_world::World;
use std::alloc::Global;
use std::mem::forget;

/// What is printed of a script of built forms, whose lines are in order. (The world isn't let go,
/// here and in [`summed`]: the program ends right behind it, and the system takes all of it.)
pub fn output(alloc: Global, mode: Mode, script: &Script) -> Result<Vec<u8>, NoMemory>
    requires playable { IsPlayable script.now }
    requires in_order { AreLinesInOrder script.now.lines }
    ensures { IfOk result (λ text. TellsAWorld mode script.now text.items) }
{
    let world: World = play(alloc, script)?;
    let text = tell_world(alloc, mode, script, &world);
    world.leave();
    text
}

/// The summary of the script that is generated.
pub fn summed(alloc: Global, load: &Load) -> Result<Vec<u8>, NoMemory>
    requires { IsLoad load.now }
    ensures { IfOk result (λ text. IsSummed load.now text.items) }
{
    let script = generated(alloc, load)?;
    let world: World = play(alloc, &script)?;
    let text = sum_up(alloc, &script, &world);
    world.leave();
    forget(script);
    text
}

/// The summary of a world.
fn sum_up(alloc: Global, script: &Script, world: &World) -> Result<Vec<u8>, NoMemory>
    ensures { IfOk result (λ text. text.items ≡ summary_text script.now (seen world.now).history) }
{
    summary(alloc, script, world.history())
}

/// The text of a world.
fn tell_world(
    alloc: Global,
    mode: Mode,
    script: &Script,
    world: &World,
) -> Result<Vec<u8>, NoMemory>
    requires { AreShown (seen world.now).history }
    ensures { IfOk result (λ text. text.items ≡ text_of mode script.now (seen world.now)) }
{
    let a = world.operations(SiteId::A);
    let b = world.operations(SiteId::B);
    tell(alloc, mode, script, world.history(), a, b)
}

/// The text of a history and the logs of both sites.
fn tell(
    alloc: Global,
    mode: Mode,
    script: &Script,
    history: &[Entry],
    a: &[Done],
    b: &[Done],
) -> Result<Vec<u8>, NoMemory>
    requires { AreShown history.now }
    ensures { IfOk result (λ text. text.items ≡ told_text mode script.now history.now a.now b.now) }
{
    match mode {
        Mode::Replies => replies(alloc, script, history, a, b),
        Mode::Trace => trace(alloc, script, history, a, b),
    }
}
