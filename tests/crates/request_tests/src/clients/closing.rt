//! `close`, and who waits behind it. The image 7 has the objects 0 and 1. Most clients have its
//! lock at first, and watch it.
use super::drive::{OWNS, Tested};
use crate::fixtures::cases_hold;
use std::test::Fail;

const NEW: &str = "a close waits for one that is on its way
1 takes write-0
2 takes close
1,2 dir-find id-7
1 header-get header
2 waits
1 watch done
2 waits
1 lock-take done
2 waits
1 header-get header
2 waits
1 map-set done, data-write done done
2 lock-drop done, notify-ReleasedLock done, unwatch done done
free 1

a close takes no lock and tells of none that it had not
1 takes close, dir-find id-7, lock-drop changed, unwatch done done
free 1
0 waits";

#[test]
fn closes_without_the_lock(rt: HostRuntime) -> Result<(), Fail> {
    cases_hold::<Tested>(rt.alloc(), "", NEW)?;
    Ok(())
}

const OWNERS: &str = "a close drops the lock and the watch and a later write takes both anew
1 takes close, dir-find id-7, lock-drop done, notify-ReleasedLock done, unwatch done done
0 waits
1 takes write-0, dir-find id-7, header-get header, watch done, lock-take done, header-get header
1 map-set done, data-write done done
free 1

a close waits for all ahead of it and those behind wait for it
1 takes write-0
2 takes close
3 takes fill-1
1,2,3 dir-find id-7
1,3 header-get header
2,3 waits
1 header-get header
2,3 waits
1 map-set done, data-write done done
3 waits
2 lock-drop done
3 waits
2 notify-ReleasedLock done
3 waits
2 unwatch done done
3 watch done, lock-take done, header-get header, map-set done, data-write done done
free 1

who asks for the lock does not hold a close back
1 takes close, dir-find id-7
hears RequestLock
1 lock-drop done
0 waits
1 notify-ReleasedLock done, unwatch done done
0 waits
free 1

a quiesce does not hold a close back and ends with it
1 takes quiesce, dir-find id-7, header-get header, header-get header done
hears RequestLock
0 waits
1 takes close, dir-find id-7, lock-drop done
0 waits
1 notify-ReleasedLock done, unwatch done done
0 waits
1 takes write-0, dir-find id-7, header-get header, watch done, lock-take done, header-get header
1 map-set done, data-write done done
0 waits
free 1

a close waits for a write that a quiesce holds back
1 takes quiesce, dir-find id-7, header-get header, header-get header done, takes write-0
2 takes close
1 dir-find id-7, header-get header, waits
2 dir-find id-7, waits
3 takes resume, dir-find id-7 done
2 waits
1 header-get header
2 waits
1 map-set done, data-write done done
2 lock-drop done, notify-ReleasedLock done, unwatch done done
free 1

a close that ends behind its drop leaves no lock and the watch
1 takes close, dir-find id-7, lock-drop done, notify-ReleasedLock fenced Fenced, takes write-0
1 dir-find id-7, header-get header, lock-take done, header-get header, map-set done
1 data-write done done, takes close, dir-find id-7, lock-drop none NoImage, takes write-0
1 dir-find id-7, header-get header, lock-take done, header-get header, map-set done
1 data-write done done
free 1

a close of another image leaves the lock
1 takes close, dir-find id-8, lock-drop@8 changed, unwatch@8 done done, takes write-0
1 dir-find id-7, header-get header, header-get header, map-set done, data-write done done
free 1";

#[test]
fn an_owner_closes(rt: HostRuntime) -> Result<(), Fail> {
    cases_hold::<Tested>(rt.alloc(), OWNS, OWNERS)?;
    Ok(())
}
