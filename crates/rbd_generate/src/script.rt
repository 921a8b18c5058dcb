//! The script.
ghost use Rattle.std.specs.Prelude.{◌≡◌, ◌≤◌, ◌<◌, ◌*◌, ◌++◌, map, IfOk, OnOk};
ghost use Rattle.std.specs.List.{range_with_len};
ghost use Rattle.rbd_generate.specs.Generated.{waiting_command, client_of, command_line, create_line, generated_lines, script_of, settle_line};
ghost use Rattle.rbd_words.specs.Load.{IsLoad};

use crate::command::{command, create};
use crate::names::client_name;
use rbd_kinds::{Command, NoMemory, Number, SessionNo, Shared, SiteId};
use rbd_script::{Declared, Line, Lines, Said, Script, Sessions};
use rbd_words::Load;
use std::alloc::Global;

/// How many rounds the images are given to be made in: far more than they take.
const ROUNDS: u64 = 1_000_000;

/// The script that is generated: its clients, the images that they make, and then, turn by turn, a
/// command of each.
pub fn generated(alloc: Global, load: &Load) -> Result<Script, NoMemory>
    requires { IsLoad load.now }
    ensures { IfOk result (λ script. script ≡ script_of load.now) }
{
    let sessions = clients(alloc, load.clients)?;
    let lines = lines(alloc, load)?;
    Ok(Script { sessions, lines })
}

fn clients(alloc: Global, clients: u32) -> Result<Sessions, NoMemory>
    ensures { IfOk result (λ sessions. sessions ≡ map client_of (range_with_len 1 clients)) }
{
    let mut sessions = Sessions::new(alloc);
    for before in 0..clients {
        sessions.push(client(alloc, before + 1)?)?;
    }
    Ok(sessions)
}

fn client(alloc: Global, client: u32) -> Result<Declared, NoMemory>
    ensures { IfOk result (λ declared. declared ≡ client_of client) }
{
    Ok(Declared {
        line: client,
        name: client_name(alloc, client)?,
        home: SiteId::A,
    })
}

fn lines(alloc: Global, load: &Load) -> Result<Lines, NoMemory>
    requires { IsLoad load.now }
    ensures { IfOk result (λ lines. lines ≡ generated_lines load.now) }
{
    let mut lines = creates(alloc, load)?;
    lines.push(settle(load))?;
    push_commands(alloc, &mut lines, load)?;
    Ok(lines)
}

/// Each client makes its image.
fn creates(alloc: Global, load: &Load) -> Result<Lines, NoMemory>
    requires { IsLoad load.now }
    ensures { IfOk result (λ lines. lines ≡ map (create_line load.now) (range_with_len 1 load.now.clients)) }
{
    let mut lines = Lines::new(alloc);
    for before in 0..load.clients {
        lines.push(create_line(alloc, load, before + 1)?)?;
    }
    Ok(lines)
}

fn create_line(alloc: Global, load: &Load, client: u32) -> Result<Line, NoMemory>
    requires load { IsLoad load.now }
    requires some { 1 ≤ client }
    requires few { client ≤ 16 }
    ensures { IfOk result (λ line. line ≡ create_line load.now client) }
{
    let command = create(alloc, client)?;
    asked(alloc, load.clients + client, client, command)
}

/// All images are made.
fn settle(load: &Load) -> Line
    requires { IsLoad load.now }
    ensures { result ≡ settle_line load.now }
{
    Line {
        number: 2 * load.clients + 1,
        said: Said::Settle(Number::new(ROUNDS).unwrap()),
    }
}

/// Adds the commands of all turns.
fn push_commands(alloc: Global, lines: &mut Lines, load: &Load) -> Result<(), NoMemory>
    requires { IsLoad load.now }
    ensures { OnOk result (lines.new ≡ lines.old ++ map (command_line load.now)
        (range_with_len 0 (load.now.commands * load.now.clients))) }
{
    for at in 0..commands(load) {
        lines.push(command_line(alloc, load, at)?)?;
    }
    Ok(())
}

/// How many commands all turns have.
fn commands(load: &Load) -> u32
    requires { IsLoad load.now }
    ensures { result ≡ load.now.commands * load.now.clients }
{
    load.commands * load.clients
}

/// The command at a place among those of all turns.
fn command_line(alloc: Global, load: &Load, at: u32) -> Result<Line, NoMemory>
    requires load { IsLoad load.now }
    requires at { at < load.now.commands * load.now.clients }
    ensures { IfOk result (λ line. line ≡ command_line load.now at) }
{
    let client = 1 + at % load.clients;
    let command = command(alloc, load, client, at / load.clients)?;
    asked(alloc, 2 * load.clients + 2 + at, client, command)
}

/// The line of a client's command.
fn asked(alloc: Global, number: u32, client: u32, command: Command) -> Result<Line, NoMemory>
    requires some { 1 ≤ client }
    requires few { client ≤ 16 }
    ensures { IfOk result (λ line. line ≡ waiting_command number client command) }
{
    let said = Said::Command {
        session: SessionNo((client - 1) as u8),
        beside: false,
        command: Shared::new(alloc, command)?,
    };
    Ok(Line { number, said })
}
