//! A piece that begins again, of a client that is asked for its lock, or is to quiesce or close the
//! image: it goes on to its end first.
//!
//! The image 7 is a clone of 8,192 bytes in objects of 4,096. It takes the first 4,098 bytes from
//! the image 3, at its snapshot 1. A write begins a piece again where that snapshot isn't there:
//! `write-0-1` changes the objects 0 and 1, `write-0` the object 0. A `fill-1` changes the object
//! 1, and knows nothing of parents.
use super::drive::TestedBy;
use crate::fixtures::{CloneRequest, cases_hold};
use std::test::Fail;

/// A client whose writes are those of clones.
type Tested = TestedBy<CloneRequest>;

const NEW: &str = "who took the lock itself keeps it until a piece that begins again has ended
1 takes write-0, dir-find id-7, header-get clone, watch done, lock-take done
hears RequestLock
0 waits
1 header-get clone, map-set done, data-write none, header-get@3 none
0 waits
moves 7
1 map-set done, data-write none, header-get@3 header
0 waits
moves 7
1 map-set done, data-write none, header-get@3 parent, data-read@3 none, data-copy-up done
0 waits
moves 7
1 data-write done done
rests 7
0 lock-drop done, notify-ReleasedLock done, waits
free 1";

#[test]
fn who_takes_the_lock_keeps_it(rt: HostRuntime) -> Result<(), Fail> {
    cases_hold::<Tested>(rt.alloc(), "", NEW)?;
    Ok(())
}

/// What a client does that takes the lock of the clone, and leaves it at rest.
const OWNS: &str =
    "1 takes write-0, dir-find id-7, header-get clone, watch done, lock-take done, header-get clone
1 map-set done, data-write done done";

const ASKED: &str = "a lock is kept until a piece that begins again and who waits for it have ended
1 takes write-0-1
2 takes fill-1
1,2 dir-find id-7, header-get clone, header-get clone
1 map-set 0 1 => done, data-write 0 must at 4094 2 he => done
1 map-set 1 1 => done
hears RequestLock
0,2 waits
1 data-write 1 must at 0 3 llo => none
0,2 waits
1 header-get elsewhere => none
0,2 waits
moves 7
1 map-set 1 1 => done
0,2 waits
1 data-write 1 must at 0 3 llo => none
0,2 waits
1 header-get elsewhere => header size 4098
0,2 waits
moves 7
1 map-set 1 1 => done
0,2 waits
1 data-write 1 must at 0 3 llo => none
0,2 waits
1 header-get elsewhere => header size 4098 snap 4098
0,2 waits
1 data-read elsewhere 1 snap 1 at 0 2 => bytes ab
0,2 waits
1 data-copy-up 1 ab => done
0,2 waits
moves 7
1 data-write 1 at 0 3 llo => done => done
0 waits
moves 7
2 map-set 1 1 => done
0 waits
2 data-write done done
rests 7
0 lock-drop done, notify-ReleasedLock done, waits
free 1

who is asked while a piece begins again lets nobody else go on to its own
1 takes write-0, dir-find id-7, header-get clone, header-get clone
1 map-set done, data-write none, header-get@3 none
hears RequestLock
0 waits
2 takes fill-1, dir-find id-7, header-get clone, waits
1 map-set done, data-write none, header-get@3 none
0,2 waits
hears RequestLock
1 map-set done
0,2 waits
1 data-write done done
2 waits
0 lock-drop done, notify-ReleasedLock done
2 lock-take done, header-get clone, map-set done, data-write done done
0 waits
free 1

a lock is let go once a piece that began again is refused
1 takes write-0-1, dir-find id-7, header-get clone, header-get clone
1 map-set done, data-write done, map-set done, data-write none, header-get@3 none
hears RequestLock
0 waits
1 map-set done, data-write none, header-get@3 none
0 waits
moves 7
1 map-set none NoImage
rests 7
0 lock-drop done, notify-ReleasedLock done, waits
free 1";

#[test]
fn a_lock_is_kept_while_a_piece_begins_again(rt: HostRuntime) -> Result<(), Fail> {
    cases_hold::<Tested>(rt.alloc(), OWNS, ASKED)?;
    Ok(())
}

const QUIESCED: &str = "a quiesce waits for a piece that begins again and holds others back
1 takes write-0-1
2 takes quiesce
3 takes fill-1
1,2,3 dir-find id-7, header-get clone
1 header-get clone
2,3 waits
1 map-set 0 1 => done, data-write 0 must at 4094 2 he => none, header-get elsewhere => none
2,3 waits
1 map-set 0 1 => done, data-write 0 must at 4094 2 he => none, header-get elsewhere => none
2,3 waits
1 map-set 0 1 => done, data-write 0 must at 4094 2 he => done
2,3 waits
1 map-set 1 1 => done, data-write 1 must at 0 3 llo => none, header-get elsewhere => none
2,3 waits
moves 7
1 map-set 1 1 => done, data-write 1 must at 0 3 llo => done => done
3 waits
2 header-get clone done
rests 7
3 waits
hears RequestLock
0,3 waits
1 takes resume, dir-find id-7 done
3 waits
0 lock-drop done, notify-ReleasedLock done
3 lock-take done, header-get clone, map-set done, data-write done done
0 waits
free 1

who is asked and is to quiesce does neither before a piece that begins again has ended
1 takes write-0
2 takes quiesce
1,2 dir-find id-7, header-get clone
1 header-get clone, map-set done, data-write none
hears RequestLock
0,2 waits
1 header-get@3 none
0,2 waits
1 map-set done, data-write none, header-get@3 none
0,2 waits
moves 7
1 map-set done, data-write done done
2 waits
0 lock-drop done, notify-ReleasedLock done
2 lock-take done, header-get clone done
hears RequestLock
0 waits
free 1

a close waits for a piece that begins again twice
1 takes write-0
2 takes close
1,2 dir-find id-7
1 header-get clone, header-get clone
2 waits
1 map-set done, data-write none, header-get@3 none
2 waits
1 map-set done, data-write none, header-get@3 none
2 waits
moves 7
1 map-set done, data-write done done
rests 7
2 lock-drop done, notify-ReleasedLock done, unwatch done done
0 waits
free 1";

#[test]
fn an_image_comes_to_rest_behind_a_piece_that_begins_again(rt: HostRuntime) -> Result<(), Fail> {
    cases_hold::<Tested>(rt.alloc(), OWNS, QUIESCED)?;
    Ok(())
}
