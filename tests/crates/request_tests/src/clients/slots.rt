//! Slots are taken from the lowest on, and are free again behind a reply; and who the client is.
use super::drive::Tested;
use crate::fixtures::{ME, Slots, cases_hold, none_holds};
use rbd_kinds::SiteId;
use std::test::Fail;

const NEW: &str = "a new client has all slots free and gives the first
free 1
0,1,64 waits
65 waits
0,1,65 line none
1,0,65 refused not
rests 7
heard nothing
1 takes tell, line 1
free 2

a create outside the limits is refused and its slot is free
1 takes create-outside
free 2
1 line 1, waits
2 takes create-outside
1 refused BadShape
free 1
1 line none, refused not, waits
2 line 2, refused BadShape
free 1

no slot is free where 64 are held
1-64 takes tell
free none
64 dir-find id-7, notify-hello done done
free 64
64 takes tell
free none
17 dir-find none NoImage
free 17
17 takes tell
free none";

#[test]
fn slots_are_taken_and_freed(rt: HostRuntime) -> Result<(), Fail> {
    cases_hold::<Tested>(rt.alloc(), "", NEW)?;
    Ok(())
}

#[test]
fn a_client_is_the_instance_at_the_site_that_it_was_made_for(rt: HostRuntime) -> Result<(), Fail> {
    let tested = Tested::begin(rt.alloc())?;
    assert!(rt; tested.is(ME, SiteId::A));
    Ok(())
}

/// What a new client with a write in its first slot doesn't do.
const NOT_SO: &str = "free 1
free none
1 waits
1 line 2
1 line none
1 refused NoImage
moves 7
heard hello
1 header-get header
1 dir-add id-7
1 dir-find disc => id-7
1 dir-find disk => done
0 lock-drop done
2 dir-find id-7
2 dir-find disk => id-7
2 refused BadShape
3 takes tell
1 dir-find none done";

#[test]
fn a_row_that_is_not_so_does_not_hold(rt: HostRuntime) -> Result<(), Fail> {
    none_holds::<Tested>(rt.alloc(), "1 takes write-0", NOT_SO)?;
    Ok(())
}
