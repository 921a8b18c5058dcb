//! What a client does.
ghost use Rattle.std.specs.Prelude.{◌≡◌, ◌<◌, ◌≤◌, IfOk};
ghost use Rattle.rbd_generate.specs.Generated.{command_by, generated_command, create_of, drawn, owner, write_place};
ghost use Rattle.rbd_words.specs.Load.{IsLoad};

use crate::names::image_name;
use rbd_kinds::{AskedName, Command, FillLength, NoMemory, Number, ReadLength, Shape};
use rbd_words::Load;
use std::alloc::Global;

/// How large an image is, in bytes.
const IMAGE: u64 = 1_048_576;

/// How large an object is, in bytes.
const OBJECT: u64 = 4_096;

/// How many bytes a command is about.
const LENGTH: u64 = 64;

/// The command by which a client makes its image.
pub fn create(alloc: Global, client: u32) -> Result<Command, NoMemory>
    ensures { IfOk result (λ command. command ≡ create_of client) }
{
    Ok(Command::Create {
        image: image_name(alloc, client)?,
        size: Number::new(IMAGE).unwrap(),
        shape: Shape {
            object: Number::new(OBJECT),
            unit: None,
            count: None,
            journal: false,
        },
    })
}

/// A client's command in a turn.
pub fn command(alloc: Global, load: &Load, client: u32, turn: u32) -> Result<Command, NoMemory>
    requires load { IsLoad load.now }
    requires client { client ≤ 16 }
    requires turn { turn < 10000 }
    ensures { IfOk result (λ command. command ≡ generated_command load.now client turn) }
{
    let image = image_name(alloc, owner(load, client, turn))?;
    Ok(command_by(drawn(load, client, turn), image))
}

/// The number that is drawn for a client's command in a turn.
fn drawn(load: &Load, client: u32, turn: u32) -> u64
    requires client { client ≤ 16 }
    requires turn { turn < 10000 }
    ensures drawn { result ≡ drawn load.now client turn }
    ensures below { result < 65536 }
{
    (7 * u64::from(load.seed) + 31 * u64::from(client) + 17 * u64::from(turn)) % 65_536
}

/// Whose image a client's command in a turn is for.
fn owner(load: &Load, client: u32, turn: u32) -> u32
    requires load { IsLoad load.now }
    requires client { client ≤ 16 }
    requires turn { turn < 10000 }
    ensures { result ≡ owner load.now client turn }
{
    1 + (client + turn) % load.clients
}

/// The command of an image that a number says.
fn command_by(number: u64, image: AskedName) -> Command
    ensures { result ≡ command_by number image }
{
    let at = place(number);
    match number % 4 {
        1 => Command::Read {
            image,
            snap: None,
            at,
            len: ReadLength::new(LENGTH).unwrap(),
        },
        2 => Command::Discard {
            image,
            at,
            len: Number::new(LENGTH).unwrap(),
        },
        _ => Command::Fill {
            image,
            at,
            len: FillLength::new(LENGTH).unwrap(),
            byte: (number % 256) as u8,
        },
    }
}

/// Where the command begins.
fn place(number: u64) -> Number
    ensures { result ≡ write_place number }
{
    Number::new(LENGTH * (number % 16_384)).unwrap()
}
