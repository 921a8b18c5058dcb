//! A request whose piece begins again, alone: a write of `hello` from byte 4,094 on to a clone of
//! 8,192 bytes in objects of 4,096. The clone takes its first 4,098 bytes from a snapshot of
//! another image: all of the object 0, and two bytes of the object 1. What the write has to want
//! was worked out from the diagram of `ClonePiece`.
use super::commands::first_row;
use crate::fixtures::{RowError, clone_write, fails, hello, holds, name, plays};
use rbd_kinds::{NoMemory, SiteId};
use std::alloc::Global;

/// Whether the write wants these rows.
fn goes(alloc: Global, rows: &str) -> Result<bool, RowError> {
    let bytes = hello(alloc)?.into_bytes();
    let image = name(alloc, "disk")?.into_name();
    let mut write = clone_write(alloc, SiteId::A, image, 4094, bytes);
    let played = plays(alloc, &mut write, rows);
    drop(write);
    Ok(played?)
}

const CASES: &str = "a piece whose parent is gone begins again twice and then ends
dir-find disk => id-7
join
header-get => header size 8192 parent 4098
hold
header-get => header size 8192 parent 4098
note
turn 0
map-set 0 1 => done
data-write 0 must at 4094 2 he of 4094 => done
turn 1
map-set 1 1 => done
data-write 1 must at 0 3 llo of 4096 => none
header-get elsewhere => none
map-set 1 1 => done
data-write 1 must at 0 3 llo of 4096 => none
header-get elsewhere => header size 4098
map-set 1 1 => done
data-write 1 must at 0 3 llo of 4096 => none
header-get elsewhere => header size 4098 snap 4098
data-read elsewhere 1 snap 1 at 0 2 of 4096 => bytes ab
data-copy-up 1 ab => done
data-write 1 at 0 3 llo of 4096 => done
applied
done

a piece that begins again twice ends by its write where its object is there then
dir-find disk => id-7
join
header-get => clone
hold
header-get => clone
note
turn 0
map-set 0 1 => done
data-write 0 must at 4094 2 he of 4094 => none
header-get elsewhere => none
map-set 0 1 => done
data-write 0 must at 4094 2 he of 4094 => none
header-get elsewhere => none
map-set 0 1 => done
data-write 0 must at 4094 2 he of 4094 => done
turn 1
map-set 1 1 => done
data-write 1 must at 0 3 llo of 4096 => done
applied
done

each piece begins again twice by itself
dir-find disk => id-7
join
header-get => clone
hold
header-get => clone
note
turn 0
map-set 0 1 => done
data-write 0 must at 4094 2 he of 4094 => none
header-get elsewhere => header size 4098
map-set 0 1 => done
data-write 0 must at 4094 2 he of 4094 => none
header-get elsewhere => none
map-set 0 1 => done
data-write 0 must at 4094 2 he of 4094 => none
header-get elsewhere => parent
data-read elsewhere 0 snap 1 at 0 4096 of 0 => none
data-copy-up 0  => exists
data-write 0 at 4094 2 he of 4094 => done
turn 1
map-set 1 1 => done
data-write 1 must at 0 3 llo of 4096 => none
header-get elsewhere => none
map-set 1 1 => done
data-write 1 must at 0 3 llo of 4096 => none
header-get elsewhere => header size 4098
map-set 1 1 => done
data-write 1 must at 0 3 llo of 4096 => done
applied
done

an object outside the overlap is written whether it is there or not
dir-find disk => id-7
join
header-get => header size 8192 parent 4096
hold
header-get => header size 8192 parent 4096
note
turn 0
map-set 0 1 => done
data-write 0 must at 4094 2 he of 4094 => none
header-get elsewhere => none
map-set 0 1 => done
data-write 0 must at 4094 2 he of 4094 => done
turn 1
map-set 1 1 => done
data-write 1 at 0 3 llo of 4096 => done
applied
done

the fence ends a request whose piece began again
dir-find disk => id-7
join
header-get => clone
hold
header-get => clone
note
turn 0
map-set 0 1 => done
data-write 0 must at 4094 2 he of 4094 => none
header-get elsewhere => none
map-set 0 1 => done
data-write 0 must at 4094 2 he of 4094 => none
header-get elsewhere => fenced
Fenced

a request whose piece began again is refused where the image is gone then
dir-find disk => id-7
join
header-get => clone
hold
header-get => clone
note
turn 0
map-set 0 1 => done
data-write 0 must at 4094 2 he of 4094 => none
header-get elsewhere => none
map-set 0 1 => none
NoImage";

#[test]
fn a_piece_begins_again_and_then_ends(rt: HostRuntime) {
    for case in CASES.split("\n\n") {
        let (title, rows) = first_row(case);
        assert!(rt; holds(goes(rt.alloc(), rows)), "{title}");
    }
}

// ---- what a piece that begins again doesn't want

/// All that is wanted up to where the first piece begins again.
const TO_THE_LOSS: &str = "dir-find disk => id-7
join
header-get => clone
hold
header-get => clone
note
turn 0
map-set 0 1 => done
data-write 0 must at 4094 2 he of 4094 => none
header-get elsewhere => none
";

/// What is wanted then, where its object is there.
const SO: &str = "map-set 0 1 => done
data-write 0 must at 4094 2 he of 4094 => done
turn 1
map-set 1 1 => done
data-write 1 must at 0 3 llo of 4096 => done
applied
done";

/// What isn't, in front of as much of that as it leaves.
const NOT_SO: &str = "its write without the state of its object
data-write 0 must at 4094 2 he of 4094 => done
turn 1
map-set 1 1 => done
data-write 1 must at 0 3 llo of 4096 => done
applied
done

its turn once more
turn 0
map-set 0 1 => done
data-write 0 must at 4094 2 he of 4094 => done
turn 1
map-set 1 1 => done
data-write 1 must at 0 3 llo of 4096 => done
applied
done

the turn of the next piece
turn 1
map-set 1 1 => done
data-write 1 must at 0 3 llo of 4096 => done
applied
done

its event once more
note
turn 0
map-set 0 1 => done
data-write 0 must at 4094 2 he of 4094 => done
turn 1
map-set 1 1 => done
data-write 1 must at 0 3 llo of 4096 => done
applied
done

another look at the clone
header-get => clone
map-set 0 1 => done
data-write 0 must at 4094 2 he of 4094 => done
turn 1
map-set 1 1 => done
data-write 1 must at 0 3 llo of 4096 => done
applied
done

the end of its event
applied
done

a refusal
NoImage";

/// Rows behind those up to where the first piece begins again.
fn behind_the_loss(alloc: Global, rows: &str) -> Result<String, NoMemory> {
    let mut all = String::new(alloc);
    all.push_str(TO_THE_LOSS)?;
    all.push_str(rows)?;
    Ok(all)
}

/// Whether the write wants these rows there.
fn goes_on(alloc: Global, rows: &str) -> Result<bool, RowError> {
    let all = behind_the_loss(alloc, rows)?;
    goes(alloc, all.as_str())
}

#[test]
fn a_piece_that_begins_again_wants_nothing_else(rt: HostRuntime) {
    assert!(rt; holds(goes_on(rt.alloc(), SO)));
    for case in NOT_SO.split("\n\n") {
        let (title, rows) = first_row(case);
        assert!(rt; fails(goes_on(rt.alloc(), rows)), "{title}");
    }
}
