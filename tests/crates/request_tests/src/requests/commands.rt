//! The requests of the commands that a case spells, and what each of them wants.
//!
//! A case is a paragraph: what is tested, the command, and the rows of `fixtures` by which its
//! request is fed.
use crate::fixtures::{
    RowError, asked, fails, fill_length, holds, name, number, payload, plays, read_length,
};
use rbd_data::{ReadRequest, write_request};
use rbd_image::{CreateRequest, ListRequest};
use rbd_kinds::{AskedName, Command, Number, Shape, SiteId};
use rbd_machine::Machine;
use rbd_snap::SnapRequest;
use std::alloc::Global;
use std::process::Abort;

/// The first word of a text, and what stands behind it.
fn parted(text: &str) -> (&str, &str) {
    text.split_once(' ').unwrap_or((text, ""))
}

/// Whether a request wants what the rows say. It goes with the call.
fn played<M: Machine + Drop>(alloc: Global, request: M, rows: &str) -> Result<bool, RowError> {
    let mut request = request;
    let played = plays(alloc, &mut request, rows);
    drop(request);
    Ok(played?)
}

// ---- bytes

/// `write 4094 hello`
fn write(alloc: Global, words: &str, rows: &str) -> Result<bool, RowError> {
    let (at, text) = parted(words);
    let at = asked(at)?;
    let image = name(alloc, "disk")?;
    let bytes = payload(alloc, text)?;
    let request = write_request(alloc, SiteId::A, Command::Write { image, at, bytes })?;
    played(alloc, request, rows)
}

/// `fill 0 3`: so many bytes of 7.
fn fill(alloc: Global, words: &str, rows: &str) -> Result<bool, RowError> {
    let (at, len) = parted(words);
    let command = Command::Fill {
        image: name(alloc, "disk")?,
        at: asked(at)?,
        len: fill_length(number(len))?,
        byte: 7,
    };
    let request = write_request(alloc, SiteId::A, command)?;
    played(alloc, request, rows)
}

/// The snapshot of this name, and the head where there is none.
fn snap_of(alloc: Global, text: &str) -> Result<Option<AskedName>, RowError> {
    if text.is_empty() {
        return Ok(None);
    }
    Ok(Some(name(alloc, text)?))
}

/// `read 4094 5`, and `read 4094 5 first` of a snapshot.
fn read(alloc: Global, words: &str, rows: &str) -> Result<bool, RowError> {
    let (at, rest) = parted(words);
    let (len, snap) = parted(rest);
    let at = asked(at)?;
    let len = read_length(number(len))?;
    let image = name(alloc, "disk")?;
    let snap = snap_of(alloc, snap)?;
    let command = Command::Read {
        image,
        snap,
        at,
        len,
    };
    let request = ReadRequest::new(SiteId::A, command);
    played(alloc, request, rows)
}

// ---- headers and names

/// `create 4096`, and `create 4096 4097` with objects of so many bytes. A request that is refused
/// before any operation has its refusal as the only row.
fn create(alloc: Global, words: &str, rows: &str) -> Result<bool, RowError> {
    let (size, object) = parted(words);
    let command = Command::Create {
        image: name(alloc, "disk")?,
        size: asked(size)?,
        shape: Shape {
            object: Number::new(number(object)).filter(|_| !object.is_empty()),
            unit: None,
            count: None,
            journal: false,
        },
    };
    let request = CreateRequest::new(SiteId::A, command);
    match request.refusal() {
        Some(refusal) => {
            drop(request);
            Ok(rows == refusal.word())
        }
        None => played(alloc, request, rows),
    }
}

/// `ls`
fn list(alloc: Global, rows: &str) -> Result<bool, RowError> {
    let request = ListRequest::new(SiteId::A, Command::List);
    played(alloc, request, rows)
}

/// `info`
fn info(alloc: Global, rows: &str) -> Result<bool, RowError> {
    let image = name(alloc, "disk")?;
    let request = ListRequest::new(SiteId::A, Command::Info { image });
    played(alloc, request, rows)
}

/// `snap-create first`
fn snap_create(alloc: Global, snap: &str, rows: &str) -> Result<bool, RowError> {
    let image = name(alloc, "disk")?;
    let snap = name(alloc, snap)?;
    let request = SnapRequest::new(SiteId::A, Command::SnapCreate { image, snap });
    played(alloc, request, rows)
}

/// `snap-rm first`
fn snap_remove(alloc: Global, snap: &str, rows: &str) -> Result<bool, RowError> {
    let image = name(alloc, "disk")?;
    let snap = name(alloc, snap)?;
    let request = SnapRequest::new(SiteId::A, Command::SnapRemove { image, snap });
    played(alloc, request, rows)
}

// ---- cases

/// Whether the request of a command, of the image `disk`, wants what the rows say.
fn play(alloc: Global, command: &str, rows: &str) -> Result<bool, RowError> {
    let (word, rest) = parted(command);
    match word {
        "write" => write(alloc, rest, rows),
        "fill" => fill(alloc, rest, rows),
        "read" => read(alloc, rest, rows),
        "create" => create(alloc, rest, rows),
        "ls" => list(alloc, rows),
        "info" => info(alloc, rows),
        "snap-create" => snap_create(alloc, rest, rows),
        "snap-rm" => snap_remove(alloc, rest, rows),
        _ => Ok(false),
    }
}

/// The first row of a text, and the others.
pub fn first_row(text: &str) -> (&str, &str) {
    text.split_once('\n').unwrap_or((text, ""))
}

/// Each case of a text holds.
pub fn cases_hold(rt: &impl Abort, alloc: Global, cases: &str) {
    for case in cases.split("\n\n") {
        let (title, rest) = first_row(case);
        let (command, rows) = first_row(rest);
        assert!(rt; holds(play(alloc, command, rows)), "{title}");
    }
}

// ---- what isn't so

/// What no request wants, or replies.
const NOT_SO: &str = "another operation
info
dir-list => names
names 0

another name
info
dir-find disc => none
NoImage

an answer that it can't give
info
dir-find disk => done
NoImage

another reply
info
dir-find disk => none
NoSnap

a row too few
info
dir-find disk => id-7
header-get => header size 4096

a row too many
info
dir-find disk => none
NoImage
NoImage

a wait where an operation is wanted
info
join
NoImage

an operation where a wait is wanted
snap-rm first
dir-find disk => id-7
header-get => header size 4096
NoSnap

another site
info
at-b dir-find disk => none
NoImage

another command
inform
dir-find disk => none
NoImage";

#[test]
fn a_case_that_is_not_so_does_not_hold(rt: HostRuntime) {
    for case in NOT_SO.split("\n\n") {
        let (title, rest) = first_row(case);
        let (command, rows) = first_row(rest);
        assert!(rt; fails(play(rt.alloc(), command, rows)), "{title}");
    }
}
