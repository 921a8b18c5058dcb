//! What ends a request on its way to a lock, or at its look under the lock behind it, and what it
//! leaves: its slot is free, and who stands behind it in its line goes on.
use super::drive::{OWNS, Tested};
use crate::fixtures::cases_hold;
use std::test::Fail;

const NEW: &str = "an image that is gone ends a request at each step of its way
1 takes write-0
2 takes snap-create
1,2 dir-find id-7, header-get header
2 waits
1 watch none NoImage
free 1
2 watch done, lock-take none NoImage
free 1
rests 7
1 takes write-0, dir-find id-7, header-get header, lock-take held, watchers-get none NoImage
free 1
1 takes write-0, dir-find id-7, header-get header, lock-take held, watchers-get listed
1 notify-RequestLock none NoImage
free 1
1 takes write-0, dir-find id-7, header-get header, lock-take held, watchers-get unlisted
1 block-add done, lock-break none NoImage
free 1
1 takes write-0, dir-find id-7, header-get header, lock-take done, header-get header, map-set done
1 data-write done done
free 1
0 waits

the fence ends a request at each step of its way
1 takes write-0
2 takes snap-create
1,2 dir-find id-7, header-get header
2 waits
1 watch fenced Fenced
free 1
2 watch done, lock-take fenced Fenced
free 1
rests 7
1 takes write-0, dir-find id-7, header-get header, lock-take held, watchers-get fenced Fenced
free 1
1 takes write-0, dir-find id-7, header-get header, lock-take held, watchers-get listed
1 notify-RequestLock fenced Fenced
free 1
1 takes write-0, dir-find id-7, header-get header, lock-take held, watchers-get unlisted
1 block-add fenced Fenced
free 1
1 takes write-0, dir-find id-7, header-get header, lock-take held, watchers-get unlisted
1 block-add done, lock-break fenced Fenced
free 1
1 takes write-0, dir-find id-7, header-get header, lock-take done, header-get header, map-set done
1 data-write done done
free 1
0 waits

who stands behind one that ended on its way goes its own
1 takes write-0
2 takes fill-1
1,2 dir-find id-7, header-get header
1 watch done, lock-take held, watchers-get listed
2 waits
1 notify-RequestLock none NoImage
2 lock-take done, header-get header, map-set done, data-write done done
rests 7
free 1

a write that its look under the lock refuses leaves the lock that it took
1 takes write-0-1, dir-find id-7, header-get header, watch done, lock-take done
moves 7
1 header-get small BadRange
rests 7
free 1
1 takes write-0, dir-find id-7, header-get header, header-get header, map-set done
1 data-write done done
hears RequestLock
0 lock-drop done, notify-ReleasedLock done, waits

a lock is let go once who took it is refused at its look under the lock
1 takes write-0, dir-find id-7, header-get header, watch done, lock-take done
hears RequestLock
0 waits
1 header-get none NoImage
rests 7
0 lock-drop done, notify-ReleasedLock done, waits
free 1

a name without an image ends a write before any way
1 takes write-0, dir-find none NoImage
free 1
1 takes write-0, dir-find id-7, header-get none NoImage
free 1
rests 7";

#[test]
fn a_way_ends(rt: HostRuntime) -> Result<(), Fail> {
    cases_hold::<Tested>(rt.alloc(), "", NEW)?;
    Ok(())
}

const OWNERS: &str = "a lock is let go once a write is refused at a state
1 takes write-0-1, dir-find id-7, header-get header, header-get header
hears RequestLock
0 waits
1 map-set fenced Fenced
0 lock-drop done, notify-ReleasedLock done, waits
free 1

a lock is let go once a snapshot is refused at its map
1 takes snap-create, dir-find id-7, header-get header, header-get header
hears RequestLock
1 map-get bits
0 waits
1 map-put fenced Fenced
0 lock-drop done, notify-ReleasedLock done, waits
free 1

a lock is let go once a write is refused at a piece
1 takes write-0-1, dir-find id-7, header-get header, header-get header
hears RequestLock
1 map-set done, data-write done
0 waits
1 map-set done, data-write fenced Fenced
0 lock-drop done, notify-ReleasedLock done, waits
free 1";

#[test]
fn what_was_taken_is_let_go(rt: HostRuntime) -> Result<(), Fail> {
    cases_hold::<Tested>(rt.alloc(), OWNS, OWNERS)?;
    Ok(())
}
