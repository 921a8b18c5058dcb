//! Commands of sessions.
ghost use Rattle.rbd_script.specs.Command.{command_form, command_of_tokens as command_in, shape as shape_in, shape_parts};
ghost use Rattle.rbd_script.specs.Fault.{Gives};
ghost use Rattle.rbd_script.specs.Form.{form};
ghost use Rattle.rbd_script.specs.Token.{tokens_of};

use crate::fault::PartFault;
use crate::mirror::mirror_command;
use crate::snap::snap_command;
use crate::tokens::Tokens;
use crate::verb::{ImageVerb, Verb};
use rbd_kinds::{Command, Shape};

/// The command that the tokens ask for.
#[tactic(auto, unfolding(crate::specs::Command::command_of_tokens))]
pub fn command_of(mut tokens: Tokens<'_>) -> Result<Command, PartFault>
    ensures { Gives result (command_in (tokens_of tokens.entry.rest.now)) }
{
    match tokens.verb()? {
        Verb::Create => create(tokens),
        Verb::Clone => clone(tokens),
        Verb::Write => write(tokens),
        Verb::Fill => fill(tokens),
        Verb::Discard => discard(tokens),
        Verb::Read => read(tokens),
        Verb::Resize => resize(tokens),
        Verb::Rename => rename(tokens),
        Verb::Image(verb) => image_command(verb, tokens),
        Verb::List => list(tokens),
        Verb::Children => children(tokens),
        Verb::Tell => tell(tokens),
        Verb::Snap => snap(tokens),
        Verb::Mirror => mirror(tokens),
    }
}

/// `create IMAGE SIZE [object N] [unit N] [count N] [journal]`
#[tactic(auto, unfolding(crate::specs::Form::form))]
fn create(mut tokens: Tokens<'_>) -> Result<Command, PartFault>
    ensures { Gives result (command_form Verb.Create (tokens_of tokens.entry.rest.now)) }
{
    let image = tokens.name()?;
    let size = tokens.number()?;
    let shape = shape(tokens)?;
    Ok(Command::Create { image, size, shape })
}

/// `[object N] [unit N] [count N] [journal]`, the end of its form.
#[tactic(auto, unfolding(crate::specs::Form::form))]
fn shape(mut tokens: Tokens<'_>) -> Result<Shape, PartFault>
    ensures { Gives result (form shape_parts shape_in (tokens_of tokens.entry.rest.now)) }
{
    let object = tokens.option("object")?;
    let unit = tokens.option("unit")?;
    let count = tokens.count("count")?;
    let journal = tokens.flag("journal")?;
    tokens.end(Shape {
        object,
        unit,
        count,
        journal,
    })
}

/// `clone IMAGE@SNAP IMAGE [object N] [unit N] [count N] [journal]`
#[tactic(auto, unfolding(crate::specs::Form::form))]
fn clone(mut tokens: Tokens<'_>) -> Result<Command, PartFault>
    ensures { Gives result (command_form Verb.Clone (tokens_of tokens.entry.rest.now)) }
{
    let (parent, snap) = tokens.snap()?;
    let image = tokens.name()?;
    let shape = shape(tokens)?;
    Ok(Command::Clone {
        parent,
        snap,
        image,
        shape,
    })
}

/// `write IMAGE AT HEX`
#[tactic(auto, unfolding(crate::specs::Form::form))]
fn write(mut tokens: Tokens<'_>) -> Result<Command, PartFault>
    ensures { Gives result (command_form Verb.Write (tokens_of tokens.entry.rest.now)) }
{
    let image = tokens.name()?;
    let at = tokens.number()?;
    let bytes = tokens.payload()?;
    tokens.end(Command::Write { image, at, bytes })
}

/// `fill IMAGE AT LEN BYTE`
#[tactic(auto, unfolding(crate::specs::Form::form))]
fn fill(mut tokens: Tokens<'_>) -> Result<Command, PartFault>
    ensures { Gives result (command_form Verb.Fill (tokens_of tokens.entry.rest.now)) }
{
    let image = tokens.name()?;
    let at = tokens.number()?;
    let len = tokens.number()?;
    let byte = tokens.byte()?;
    tokens.end(Command::Fill {
        image,
        at,
        len,
        byte,
    })
}

/// `discard IMAGE AT LEN`
#[tactic(auto, unfolding(crate::specs::Form::form))]
fn discard(mut tokens: Tokens<'_>) -> Result<Command, PartFault>
    ensures { Gives result (command_form Verb.Discard (tokens_of tokens.entry.rest.now)) }
{
    let image = tokens.name()?;
    let at = tokens.number()?;
    let len = tokens.number()?;
    tokens.end(Command::Discard { image, at, len })
}

/// `read IMAGE[@SNAP] AT LEN`
#[tactic(auto, unfolding(crate::specs::Form::form))]
fn read(mut tokens: Tokens<'_>) -> Result<Command, PartFault>
    ensures { Gives result (command_form Verb.Read (tokens_of tokens.entry.rest.now)) }
{
    let (image, snap) = tokens.target()?;
    let at = tokens.number()?;
    let len = tokens.number()?;
    tokens.end(Command::Read {
        image,
        snap,
        at,
        len,
    })
}

/// `resize IMAGE SIZE`
#[tactic(auto, unfolding(crate::specs::Form::form))]
fn resize(mut tokens: Tokens<'_>) -> Result<Command, PartFault>
    ensures { Gives result (command_form Verb.Resize (tokens_of tokens.entry.rest.now)) }
{
    let image = tokens.name()?;
    let size = tokens.number()?;
    tokens.end(Command::Resize { image, size })
}

/// `rename IMAGE IMAGE`
#[tactic(auto, unfolding(crate::specs::Form::form))]
fn rename(mut tokens: Tokens<'_>) -> Result<Command, PartFault>
    ensures { Gives result (command_form Verb.Rename (tokens_of tokens.entry.rest.now)) }
{
    let from = tokens.name()?;
    let to = tokens.name()?;
    tokens.end(Command::Rename { from, to })
}

/// `WORD IMAGE`, of a word that names an image and nothing else
#[tactic(auto, unfolding(crate::specs::Form::form))]
fn image_command(verb: ImageVerb, mut tokens: Tokens<'_>) -> Result<Command, PartFault>
    ensures { Gives result (command_form (Verb.Image verb) (tokens_of tokens.entry.rest.now)) }
{
    let image = tokens.name()?;
    tokens.end(verb.command(image))
}

/// `ls`
#[tactic(auto, unfolding(crate::specs::Form::form))]
fn list(tokens: Tokens<'_>) -> Result<Command, PartFault>
    ensures { Gives result (command_form Verb.List (tokens_of tokens.entry.rest.now)) }
{
    tokens.end(Command::List)
}

/// `children IMAGE@SNAP`
#[tactic(auto, unfolding(crate::specs::Form::form))]
fn children(mut tokens: Tokens<'_>) -> Result<Command, PartFault>
    ensures { Gives result (command_form Verb.Children (tokens_of tokens.entry.rest.now)) }
{
    let (image, snap) = tokens.snap()?;
    tokens.end(Command::Children { image, snap })
}

/// `tell IMAGE HEX`
#[tactic(auto, unfolding(crate::specs::Form::form))]
fn tell(mut tokens: Tokens<'_>) -> Result<Command, PartFault>
    ensures { Gives result (command_form Verb.Tell (tokens_of tokens.entry.rest.now)) }
{
    let image = tokens.name()?;
    let bytes = tokens.payload()?;
    tokens.end(Command::Tell { image, bytes })
}

/// `snap create|rm|protect|unprotect|rollback IMAGE@SNAP` and `snap ls IMAGE`
fn snap(mut tokens: Tokens<'_>) -> Result<Command, PartFault>
    ensures { Gives result (command_form Verb.Snap (tokens_of tokens.entry.rest.now)) }
{
    let verb = tokens.snap_verb()?;
    snap_command(verb, tokens)
}

/// `mirror enable|demote|resync|status|follow IMAGE` and `mirror promote IMAGE [force]`
fn mirror(mut tokens: Tokens<'_>) -> Result<Command, PartFault>
    ensures { Gives result (command_form Verb.Mirror (tokens_of tokens.entry.rest.now)) }
{
    let verb = tokens.mirror_verb()?;
    mirror_command(verb, tokens)
}
