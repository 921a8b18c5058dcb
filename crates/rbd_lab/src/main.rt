//! `rbd_lab` plays a script of client sessions on block images and prints what each command is
//! answered.
//!
//! ```text
//! $ printf 'client c1 a\nc1 create disk 8192 object 4096\nc1 write disk 4094 68656c6c6f\nc1 read disk 4094 5\n' | rbd_lab run
//! 2 c1 ok
//! 3 c1 ok
//! 4 c1 ok 68656c6c6f
//! ```
//!
//! With `gen` a script is drawn by a few numbers in place of being read, and one line sums up what
//! came of it.
//!
//! ```text
//! $ rbd_lab gen --seed 0 --clients 1 --commands 4
//! commands 5 ok 5 refused 0 unfinished 0 read 64
//! ```
//!
//! With `run` the script is read from the standard input to its end and judged as a whole: one that
//! has a faulty line, or a form that isn't built yet, plays nothing. Its sessions then do their
//! commands by single operations on single objects of two sites, in the order that the script says.
//! The replies are printed at the end, all of them or, where the output fails, a first part. With
//! `--trace` the history and the operation logs come before the replies.
//!
//! ```text
//! Source -> read_to -> read -> judged -> play -> replies, trace -> write_all -> Sink
//!           bytes      script            world            text
//!           words  -> generated -> play -> summary -> write_all -> Sink
//! ```
//!
//! [`run::run_alone`] has the contract: what is printed tells a world to which the script's
//! schedule led, and each reply in its history is the flat-copy machine's; no operation of a
//! session that was fenced changes anything, and who changes an image has its lock. Reading and
//! printing take time in proportion to the text; a command's work grows with the objects that it
//! touches and the logarithm of their number, not with the image's size or with what was done
//! before. (A `snap create`, a shrink, an `rm` and a `du` go over the object map, a quarter of a
//! byte an object.) The script, the objects, history, logs, events and the output lie in memory at
//! the same time.
#![tactic(auto)]

ghost use Rattle.std.specs.Prelude.{◌≡◌, ◌≢◌, [], drop, Ok, IfOk, IfErr};
ghost use Rattle.std.specs.Result.{IsErr, IsOkAnd};
ghost use Rattle.std.specs.IoError.{error_kind};
ghost use Rattle.std.specs.declared.io.ErrorKind.TheVariants.{OutOfMemory};
ghost use Rattle.std.specs.Process.{exit_status};
ghost use Rattle.rbd_lab.specs.Run.{code_of};

use rbd_edge::{StdSink, StdSource};
use rbd_kinds::NoMemory;
use run::Status;
use std::alloc::Global;
use std::io::ErrorKind;
use std::process::ExitCode;
use std::rt::Env;
use std::{env, io};

mod laws;
mod play;
mod run;
mod script;

/// The words of the command line without the program's name.
fn words(rt: &(impl Env + AllocGlobal)) -> io::Result<Vec<String>> {
    let all: Vec<String> = env::args(rt)?.collect(rt.alloc())?;
    Ok(without_first(all))
}

/// All words but the first.
fn without_first(mut words: Vec<String>) -> Vec<String>
    ensures { result.items ≡ drop 1 words.items }
{
    if !words.is_empty() {
        words.remove(0);
    }
    words
}

/// The exit status of a run that ended so.
fn exit(status: Status) -> ExitCode
    ensures { exit_status result ≡ code_of status }
{
    ExitCode::from(status.code())
}

/// The words that are judged. Where they couldn't be told, as where one isn't UTF-8, there are
/// none: so they aren't understood. `NoMemory` exactly where it was memory that they wanted.
fn understood(alloc: Global, words: io::Result<Vec<String>>) -> Result<Vec<String>, NoMemory>
    ensures told { IfOk words (λ told. result ≡ Ok told) }
    ensures no_memory { IfErr words (λ error. error_kind error ≡ OutOfMemory → IsErr result) }
    ensures others { IfErr words (λ error. error_kind error ≢ OutOfMemory → IsOkAnd result (λ none. none.items ≡ [])) }
{
    match words {
        Ok(words) => Ok(words),
        Err(error) if error.kind() == ErrorKind::OutOfMemory => Err(NoMemory),
        Err(_) => Ok(Vec::new(alloc)),
    }
}

fn main(rt: HostRuntime) -> ExitCode {
    let alloc = rt.alloc();
    let mut source = StdSource::new(rt.reader());
    let mut sink = StdSink::new(io::writer(&rt));
    exit(match understood(alloc, words(&rt)) {
        Ok(words) => run::run(&rt, alloc, words.as_slice(), &mut source, &mut sink),
        Err(NoMemory) => Status::NoMemory,
    })
}
