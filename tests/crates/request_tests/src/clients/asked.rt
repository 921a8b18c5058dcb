//! A client that is asked for its lock, and when it lets it go. The image 7 has the objects 0 and
//! 1, and so has the image 8. Most clients have the lock of the image 7 at first, and watch it.
use super::drive::{OWNS, Tested};
use crate::fixtures::cases_hold;
use std::test::Fail;

const NEW: &str = "who took the lock itself goes on though it is asked for
1 takes write-0
2 takes fill-1
1,2 dir-find id-7, header-get header
1 watch done, lock-take done
hears RequestLock
0,2 waits
moves 7
1 header-get header
0,2 waits
1 map-set done, data-write done done
2 waits
0 lock-drop done, notify-ReleasedLock done
2 lock-take done, header-get header, map-set done, data-write done done
0 waits
free 1

who asks before the lock is taken is passed over for good
hears RequestLock
0 waits
1 takes write-0, dir-find id-7, header-get header
hears RequestLock
1 watch done
hears RequestLock
1 lock-take held
hears RequestLock
1 watchers-get listed, notify-RequestLock done
hears RequestLock
0 waits
1 lock-take done
0 waits
1 header-get header, map-set done, data-write done done
0 waits
1 takes write-0, dir-find id-7, header-get header, header-get header, map-set done
1 data-write done done
0 waits
free 1";

#[test]
fn asked_before_it_owns(rt: HostRuntime) -> Result<(), Fail> {
    cases_hold::<Tested>(rt.alloc(), "", NEW)?;
    Ok(())
}

const OWNERS: &str = "a client that is asked lets its lock go and takes it anew
0 waits
rests 7
hears RequestLock
0 lock-drop done, notify-ReleasedLock done, waits
1 takes write-0, dir-find id-7, header-get header, lock-take held, watchers-get listed
1 notify-RequestLock done, lock-take done, header-get header, map-set done, data-write done done
0 waits
free 1

a write waits at its look under the lock until the lock was let go
1 takes write-0, dir-find id-7, header-get header
hears RequestLock
1 waits
rests 7
0 lock-drop done, notify-ReleasedLock done, waits
1 lock-take done, header-get header, map-set done, data-write done done
0 waits
free 1

the next write takes the lock anew once the first has ended
1 takes write-0
2 takes fill-1
1 dir-find id-7, header-get header, header-get header
0 waits
2 dir-find id-7
hears RequestLock
0 waits
2 header-get header, waits
1 map-set done, data-write done done
2 waits
0 lock-drop done, notify-ReleasedLock done
2 lock-take done, header-get header, map-set done, data-write done done
0 waits
free 1

a lock that was dropped is taken anew before the drop is told
1 takes write-0, dir-find id-7, header-get header
hears RequestLock
1 waits
0 lock-drop done
1 lock-take done
moves 7
1 header-get header
0 notify-ReleasedLock done, waits
1 map-set done, data-write done done
0 waits
free 1

a lock is kept until a write has done its last piece
1 takes write-0-1, dir-find id-7, header-get header, header-get header
hears RequestLock
0 waits
moves 7
1 map-set done
0 waits
1 data-write done
0 waits
1 map-set done
0 waits
moves 7
1 data-write done done
rests 7
0 lock-drop done, notify-ReleasedLock done, waits
free 1

a lock is kept until all that are past their look under the lock have ended
1 takes write-0
2 takes fill-1
1,2 dir-find id-7, header-get header, header-get header
hears RequestLock
0 waits
2,1 map-set done
1 data-write done done
0 waits
2 data-write done done
0 lock-drop done, notify-ReleasedLock done, waits
free 1

two locks are let go in the order of their images
1 takes write-0, dir-find id-8, header-get@8 header, watch@8 done, lock-take@8 done
1 header-get@8 header, map-set@8 done, data-write@8 done done
hears RequestLock@8
hears RequestLock
0 lock-drop done, notify-ReleasedLock done, lock-drop@8 done, notify-ReleasedLock@8 done, waits

a lock that has to be kept holds no other one back
1,2 takes write-0
1 dir-find id-8, header-get@8 header, watch@8 done, lock-take@8 done, header-get@8 header
1 map-set@8 done, data-write@8 done done
2 dir-find id-7, header-get header, header-get header
hears RequestLock
0 waits
hears RequestLock@8
0 lock-drop@8 done
2 map-set done, data-write done done
0 notify-ReleasedLock@8 done, lock-drop done, notify-ReleasedLock done, waits
free 1

who took another lock itself holds no release back
1 takes write-0, dir-find id-8, header-get@8 header, watch@8 done, lock-take@8 done
moves 8
rests 7
hears RequestLock
hears RequestLock@8
0 lock-drop done, notify-ReleasedLock done, waits
1 header-get@8 header
0 waits
1 map-set@8 done, data-write@8 done done
0 lock-drop@8 done, notify-ReleasedLock@8 done, waits
free 1

a lock that is asked for twice is let go once
hears RequestLock
hears RequestLock
0 lock-drop done
hears RequestLock
0 notify-ReleasedLock done, waits

a lock that was taken anew may be asked for again
hears RequestLock
0 lock-drop done, notify-ReleasedLock done
1 takes write-0, dir-find id-7, header-get header, lock-take done, header-get header, map-set done
1 data-write done done
0 waits
hears RequestLock
0 lock-drop done, notify-ReleasedLock done, waits

a drop that is answered changed ends the release and the lock is gone
hears RequestLock
0 lock-drop changed, waits
1 takes write-0, dir-find id-7, header-get header, lock-take held, watchers-get listed
1 notify-RequestLock done, lock-take done, header-get header, map-set done, data-write done done
hears RequestLock
0 lock-drop none, waits
1 takes write-0, dir-find id-7, header-get header, lock-take done, header-get header, map-set done
1 data-write done done
hears RequestLock
0 lock-drop fenced, waits
1 takes write-0, dir-find id-7, header-get header, lock-take fenced Fenced
free 1

whatever its notice is answered a release has ended
hears RequestLock
0 lock-drop done, notify-ReleasedLock none, waits
1 takes write-0, dir-find id-7, header-get header, lock-take done, header-get header, map-set done
1 data-write done done
hears RequestLock
0 lock-drop done, notify-ReleasedLock fenced, waits
free 1

who asks for another image is passed over
hears RequestLock@8
0 waits
1 takes write-0, dir-find id-7, header-get header, header-get header, map-set done
1 data-write done done
0 waits
free 1

no other notice asks for a lock
hears ReleasedLock
hears hello
0 waits
1 takes write-0, dir-find id-7, header-get header, header-get header, map-set done
1 data-write done done
0 waits
free 1

a read goes on whoever asks and holds no lock
1 takes read, dir-find id-7, header-get header
hears RequestLock
1 data-read none
0 lock-drop done
1 header-get header bytes
0 notify-ReleasedLock done, waits
free 1";

#[test]
fn a_lock_is_let_go_when_it_may_be(rt: HostRuntime) -> Result<(), Fail> {
    cases_hold::<Tested>(rt.alloc(), OWNS, OWNERS)?;
    Ok(())
}
