//! The way to a lock, and who goes it. The image 7 has the objects 0 and 1, and so has the image 8.
use super::drive::{OWNS, Tested};
use crate::fixtures::cases_hold;
use std::test::Fail;

const NEW: &str = "a write takes a free lock behind the watch and before its look under the lock
1 takes write-0, dir-find id-7, header-get header
rests 7
1 watch done
rests 7
1 lock-take done
moves 7
1 header-get header
moves 7
1 map-set done, data-write done done
rests 7
free 1
0 waits

an owner that watches is asked and the lock is asked for again
1 takes write-0, dir-find id-7, header-get header, watch done, lock-take held
rests 7
1 watchers-get listed, notify-RequestLock done, lock-take held, watchers-get listed
1 notify-RequestLock done, lock-take done
moves 7
1 header-get header, map-set done, data-write done done
free 1

an owner that does not watch is fenced and then loses the lock
1 takes write-0, dir-find id-7, header-get header, watch done, lock-take held
1 watchers-get unlisted, block-add done, lock-break done
rests 7
1 lock-take done, header-get header, map-set done, data-write done done
free 1

where another one was faster its owner is looked for anew
1 takes write-0, dir-find id-7, header-get header, watch done, lock-take held
1 watchers-get unlisted, block-add done, lock-break changed, lock-take held, watchers-get listed
1 notify-RequestLock done, lock-take done, header-get header, map-set done, data-write done done
free 1

a second write waits for the way of the first and goes none
1 takes write-0
2 takes fill-1
1,2 dir-find id-7, header-get header
2 waits
1 watch done
2 waits
1 lock-take held
2 waits
1 watchers-get listed
2 waits
1 notify-RequestLock done
2 waits
1 lock-take done
2 waits
1,2 header-get header
2 map-set done, data-write done done
1 map-set done, data-write done done
rests 7
free 1

one that waits in its line begins no way though it looked first
1,2 takes write-0, dir-find id-7
2 header-get header, waits
1 header-get header
2 waits
1 watch done, lock-take done
1,2 header-get header
2 waits
1 map-set done, data-write done done
2 map-set done, data-write done done
free 1

each image has a way to its own lock
1,2 takes write-0
1 dir-find id-7
2 dir-find id-8
1 header-get header
2 header-get@8 header, watch@8 done
1 watch done, lock-take done
moves 7
rests 8
2 lock-take@8 held, watchers-get@8 listed
1 header-get header
2 notify-RequestLock@8 done, lock-take@8 done
moves 8
2 header-get@8 header
1 map-set done, data-write done done
rests 7
moves 8
2 map-set@8 done, data-write@8 done done
rests 8
free 1

a snapshot takes the lock as a write does
1 takes snap-create
2 takes write-0
1 dir-find id-7, header-get header
2 dir-find id-7, header-get header
1 watch done, lock-take done
2 waits
1 header-get header
2 waits
1 map-get bits
moves 7
1 map-put done
2 waits
1 header-snap-add snap done
2 header-get header, map-set done, data-write done done
free 1

a read takes no lock
1 takes read, dir-find id-7, header-get header, data-read none, header-get header bytes
rests 7
free 1
0 waits";

#[test]
fn ways_to_a_lock(rt: HostRuntime) -> Result<(), Fail> {
    cases_hold::<Tested>(rt.alloc(), "", NEW)?;
    Ok(())
}

const OWNERS: &str = "a client that has the lock takes it no more
1 takes write-0
2 takes fill-1
1 dir-find id-7, header-get header, header-get header
2 dir-find id-7, header-get header, header-get header, map-set done, data-write done done
1 map-set done, data-write done done, takes snap-create, dir-find id-7, header-get header
1 header-get header, map-get bits, map-put done, header-snap-add snap done
free 1
0 waits";

#[test]
fn an_owner_takes_it_no_more(rt: HostRuntime) -> Result<(), Fail> {
    cases_hold::<Tested>(rt.alloc(), OWNS, OWNERS)?;
    Ok(())
}
