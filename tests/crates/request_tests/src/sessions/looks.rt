//! Who stands at its look under the lock, whether an image is at rest, and what a request that is
//! given up leaves behind. The image 7 has the objects 0 and 1.
use super::drive::Tested;
use crate::fixtures::cases_hold;
use std::test::Fail;

const CASES: &str = "the look under the lock of a write ends the rest
1 looks none, takes write-0, looks none, dir-find id-7, looks none
rests 7
1 header-get header, looks 7
rests 7
1 header-get header, looks none
moves 7
rests 8
1 map-set done, data-write done done, looks none
rests 7
free 1

one that waits stands at its look under the lock once it may go on
1 takes write-0
2 takes snap-create
1,2 dir-find id-7
2 header-get header, waits, looks none
1 header-get header, looks 7
2 looks none
1 header-get header
moves 7
2 looks none
1 map-set done, data-write done done
rests 7
2 looks 7, header-get header
moves 7
2 map-get bits, map-put done, header-snap-add snap done
rests 7

each image is at rest by itself
1,2 takes write-0
1 dir-find id-7
2 dir-find id-8
1,2 header-get header
1 looks 7
2 looks 8, header-get header
rests 7
moves 8
1 looks 7

a read has no look under the lock
1 takes read, looks none, dir-find id-7, looks none, header-get header, looks none
rests 7

who waits behind one that is given up goes on
1 takes snap-create
2 takes write-0
1,2 dir-find id-7, header-get header
2 waits
1 gives up
free 1
2 looks 7, header-get header, map-set done, data-write done done
rests 7

one that is given up leaves its tickets
1 takes write-0-1
2 takes fill-1
1,2 dir-find id-7, header-get header, header-get header
2 waits
moves 7
1 gives up
moves 7
2 map-set done, data-write done done
rests 7
free 1

the slot of one that is given up is free
1,2,3 takes ls
free 4
2 gives up
free 2
3 gives up
free 2
2,3 takes ls
free 4
1 dir-list names names
free 1

where no request runs none is given up
0,1,64 gives up
65 gives up
free 1
1 takes create-outside, gives up
free 2
1 refused BadShape
free 1";

#[test]
fn looks_under_lock_and_rest(rt: HostRuntime) -> Result<(), Fail> {
    cases_hold::<Tested>(rt.alloc(), "", CASES)?;
    Ok(())
}
