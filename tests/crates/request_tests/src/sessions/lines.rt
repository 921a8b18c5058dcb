//! Who waits for whom: the image 7 has the objects 0 and 1, and so has the image 8.
use super::drive::Tested;
use crate::fixtures::cases_hold;
use std::test::Fail;

const CASES: &str = "a write with nobody beside it never waits
1 takes write-0-1
free 2
1 dir-find id-7, header-get header, header-get header, map-set done, data-write done, map-set done
1 data-write done done
free 1

a second write of an object waits at its piece
1,2 takes write-0, dir-find id-7, header-get header, header-get header
2 waits
1 map-set done
2 waits
1 data-write done done
2 map-set done, data-write done done
free 1

a ticket goes with its piece and not before
1,2 takes write-0-1, dir-find id-7, header-get header, header-get header
2 waits
1 map-set done
2 waits
1 data-write done
2,1 map-set done
2 data-write done, waits
1 data-write done done
2 map-set done, data-write done done
free 1

a write has the tickets of all its objects from its look under the lock on
1 takes write-0-1
2 takes fill-1
1,2 dir-find id-7, header-get header, header-get header
2 waits
1 map-set done, data-write done
2 waits
1 map-set done
2 waits
1 data-write done done
2 map-set done, data-write done done
free 1

a write waits only at the object that another changes
1 takes fill-1
2 takes write-0-1
1,2 dir-find id-7, header-get header, header-get header
2 map-set done, data-write done, waits
1 map-set done, data-write done done
2 map-set done, data-write done done
free 1

a write of another object never waits at its piece
1 takes write-0
2 takes fill-1
1,2 dir-find id-7, header-get header, header-get header, map-set done
2 data-write done done
free 2
1 data-write done done
free 1

a snapshot waits at its look under the lock for a write ahead
1 takes write-0-1
2 takes snap-create
1,2 dir-find id-7
2 header-get header, waits
1 header-get header
2 waits
1 header-get header
2 waits
1 map-set done, data-write done
2 waits
1 map-set done
2 waits
1 data-write done done
2 header-get header, map-get bits, map-put done, header-snap-add snap done
free 1

a write waits at its look under the lock for a snapshot ahead
1 takes snap-create
2 takes write-0
1,2 dir-find id-7
2 header-get header, waits
1 header-get header
2 waits
1 header-get header
2 waits
1 map-get bits
2 waits
1 map-put done
2 waits
1 header-snap-add snap done
2 header-get header, map-set done, data-write done done
free 1

a write looks behind the look of one that joined before
1 takes write-0
2 takes fill-1
2,1 dir-find id-7
1 header-get header, waits
2 header-get header
1 waits
2,1 header-get header
1 map-set done, data-write done done
2 map-set done, data-write done done
free 1

snapshots of two images go side by side
1,2 takes snap-create
1 dir-find id-7
2 dir-find id-8
1,2 header-get header
2,1 header-get header
1,2 map-get bits
2,1 map-put done
1,2 header-snap-add snap done
free 1

snapshots of one image go one after another
1,2 takes snap-create, dir-find id-7
2 header-get header, waits
1 header-get header, header-get header
2 waits
1 map-get bits, map-put done, header-snap-add snap done
2 header-get header, map-get bits, map-put done, header-snap-add snap done
free 1

looks and a create never wait for a snapshot
1 takes snap-create, dir-find id-7, header-get header, header-get header
2 takes read, dir-find id-7, header-get header, data-read none, header-get header bytes
2 takes info, dir-find id-7, header-get header info, takes ls, dir-list names names, takes create
2 dir-add id-7, map-resize done, header-create done done
1 map-get bits, map-put done, header-snap-add snap done
free 1

a snapshot never waits for looks and a create
1 takes read, dir-find id-7, header-get header
2 takes info, dir-find id-7
3 takes create, dir-add id-7
4 takes snap-create, dir-find id-7, header-get header
3 map-resize done
4 header-get header, map-get bits, map-put done, header-snap-add snap done
3 header-create done done
2 header-get header info
1 data-read none, header-get header bytes
free 1

a write that is refused leaves its line
1 takes write-0-1
2 takes snap-create
1,2 dir-find id-7
2 header-get header, waits
1 header-get small BadRange
2 header-get header, map-get bits, map-put done, header-snap-add snap done
free 1

a write that its look under the lock refuses leaves its line
1 takes write-0-1
2 takes snap-create
3 takes fill-1
1,3,2 dir-find id-7
1,2,3 header-get header
3 waits
1 header-get small BadRange
2 waits
3 header-get header, map-set done, data-write done done
2 header-get header, map-get bits, map-put done, header-snap-add snap done
free 1

a ticket goes with the end of a write at a state
1,2 takes write-0-1, dir-find id-7, header-get header, header-get header
1 map-set done, data-write done
2 map-set done, data-write done, waits
1 map-set fenced Fenced
2 map-set done, data-write done done
free 1

a snapshot that is refused at a map leaves its line
1,2 takes snap-create
3 takes write-0
1,2,3 dir-find id-7, header-get header
1 header-get header, map-get none NoImage
2 header-get header, map-get bits, map-put fenced Fenced
3 header-get header, map-set done, data-write done done
free 1

all tickets go with the end of a write
1,2 takes write-0-1, dir-find id-7, header-get header, header-get header
2 waits
1 map-set done, data-write fenced Fenced
2 map-set done, data-write done, map-set done, data-write done done
free 1

a write waits at its look under the lock for a removal ahead
1 takes snap-rm
2 takes fill-1
1,2 dir-find id-7
2 header-get header, waits
1 header-get header NoSnap
2 header-get header, map-set done, data-write done done
free 1

a write passes no snapshot that waits ahead
1 takes write-0
2 takes snap-create
3 takes fill-1
1,2,3 dir-find id-7, header-get header
1 header-get header
2,3 waits
1 map-set done, data-write done done
3 waits
2 header-get header
3 waits
2 map-get bits, map-put done, header-snap-add snap done
3 header-get header, map-set done, data-write done done
free 1";

#[test]
fn who_waits_for_whom(rt: HostRuntime) -> Result<(), Fail> {
    cases_hold::<Tested>(rt.alloc(), "", CASES)?;
    Ok(())
}
