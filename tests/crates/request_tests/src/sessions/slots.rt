//! Slots are taken from the lowest on, and are free again behind a reply.
use super::drive::Tested;
use crate::fixtures::{cases_hold, none_holds};
use std::test::Fail;

const CASES: &str = "a new session has all slots free and gives the first
free 1
1,2,64 waits
0,65 waits
1,0,65 refused not
free 1
1 takes ls
free 2

a create outside the limits is refused and its slot is free
1 takes create-outside
free 2
1 waits
2 takes create-outside
1 refused BadShape
free 1
1 refused not, waits
2 refused BadShape
free 1
1 takes create, refused not, dir-add id-7, map-resize done, header-create done done
free 1

the lowest slot that was freed is given next
1,2,3 takes ls
free 4
2 dir-list names names
free 2
1 dir-list names names
free 1
1 takes ls
free 2
2 takes ls
free 4
3 dir-list names names
free 3

a write of no image is refused and is in no line
1 takes write-0, dir-find none NoImage
free 1
1 takes snap-create, dir-find id-7, header-get header, header-get header, map-get bits
1 map-put done, header-snap-add snap done
free 1

no slot is free where 64 are held
1-64 takes ls
free none
64 dir-list names names
free 64
64 takes ls
free none
17 dir-list names names
free 17
17 takes ls
free none";

#[test]
fn slots_are_taken_and_freed(rt: HostRuntime) -> Result<(), Fail> {
    cases_hold::<Tested>(rt.alloc(), "", CASES)?;
    Ok(())
}

/// What a new session with a write in its first slot doesn't do.
const NOT_SO: &str = "free 1
free none
1 waits
1 refused NoImage
1 looks 7
1 gives in
moves 7
1 header-get header
1 dir-find disc => id-7
1 dir-find disk => done
2 dir-find id-7
2 dir-find disk => id-7
2 refused BadShape
3 takes ls
1 dir-find none done";

#[test]
fn a_row_that_is_not_so_does_not_hold(rt: HostRuntime) -> Result<(), Fail> {
    none_holds::<Tested>(rt.alloc(), "1 takes write-0", NOT_SO)?;
    Ok(())
}
