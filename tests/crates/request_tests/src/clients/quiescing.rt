//! `quiesce` holds changes back, and `resume` lets them go on. The image 7 has the objects 0 and 1,
//! and so has the image 8. Most clients have the lock of the image 7 at first, and watch it.
use super::drive::{OWNS, Tested};
use crate::fixtures::cases_hold;
use std::test::Fail;

const NEW: &str = "a quiesce takes the lock before its look under the lock
1 takes quiesce, dir-find id-7, header-get header, watch done, lock-take done
moves 7
1 header-get header done
rests 7
1 takes write-0, dir-find id-7, header-get header, waits
2 takes resume, dir-find id-7 done
1 header-get header, map-set done, data-write done done
free 1";

#[test]
fn a_quiesce_takes_the_lock(rt: HostRuntime) -> Result<(), Fail> {
    cases_hold::<Tested>(rt.alloc(), "", NEW)?;
    Ok(())
}

const OWNERS: &str = "a quiesce holds a write back until a resume
1 takes quiesce, dir-find id-7, header-get header, header-get header done
rests 7
1 takes write-0, dir-find id-7, header-get header, waits
2 takes resume, dir-find id-7 done
1 header-get header, map-set done, data-write done done
free 1

a quiesce waits for the writes ahead of it and holds back those behind
1 takes write-0
2 takes quiesce
3 takes fill-1
1,2,3 dir-find id-7, header-get header
1 header-get header
2,3 waits
1 map-set done, data-write done done
3 waits
2 header-get header done
3 waits
1 takes resume, dir-find id-7 done
3 header-get header, map-set done, data-write done done
free 1

the lock of a quiesced image is kept until a resume
1 takes quiesce, dir-find id-7, header-get header, header-get header done
hears RequestLock
0 waits
1 takes write-0, dir-find id-7, header-get header, waits
2 takes resume, dir-find id-7 done
1 waits
0 lock-drop done, notify-ReleasedLock done
1 lock-take done, header-get header, map-set done, data-write done done
0 waits
free 1

no image is quiesced before the look under the lock of a quiesce
1 takes quiesce, dir-find id-7, header-get header
hears RequestLock
1 waits
0 lock-drop done, notify-ReleasedLock done
1 lock-take done, header-get header done
hears RequestLock
0 waits
free 1

a quiesce and a resume are of one image
1 takes quiesce, dir-find id-7, header-get header, header-get header done, takes write-0
1 dir-find id-8, header-get@8 header, watch@8 done, lock-take@8 done, header-get@8 header
1 map-set@8 done, data-write@8 done done
hears RequestLock
hears RequestLock@8
0 lock-drop@8 done, notify-ReleasedLock@8 done, waits
1 takes resume, dir-find id-8 done
0 waits
1 takes write-0, dir-find id-7, header-get header, waits
2 takes resume, dir-find id-7 done
0 lock-drop done, notify-ReleasedLock done, waits

a second quiesce waits for the end of the first
1 takes quiesce, dir-find id-7, header-get header, header-get header done, takes quiesce
1 dir-find id-7, header-get header, waits
2 takes resume, dir-find id-7 done
1 header-get header done, takes write-0, dir-find id-7, header-get header, waits
2 takes resume, dir-find id-7 done
1 header-get header, map-set done, data-write done done
free 1

a quiesce or a resume that finds no image changes nothing
1 takes quiesce, dir-find id-7, header-get header, header-get none NoImage, takes write-0
1 dir-find id-7, header-get header, header-get header, map-set done, data-write done done
1 takes quiesce, dir-find id-7, header-get header, header-get header done, takes resume
1 dir-find none NoImage, takes resume, dir-find fenced Fenced, takes write-0, dir-find id-7
1 header-get header, waits
2 takes resume, dir-find id-7 done
1 header-get header, map-set done, data-write done done
free 1

a resume without a quiesce changes nothing
1 takes write-0, dir-find id-7, header-get header
2 takes resume, dir-find id-7 done
1 header-get header, map-set done, data-write done done
0 waits
free 1

a read goes on in a quiesced image
1 takes quiesce, dir-find id-7, header-get header, header-get header done, takes read
1 dir-find id-7, header-get header, data-read none, header-get header bytes
free 1";

#[test]
fn changes_are_held_back(rt: HostRuntime) -> Result<(), Fail> {
    cases_hold::<Tested>(rt.alloc(), OWNS, OWNERS)?;
    Ok(())
}
