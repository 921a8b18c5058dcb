//! What a client is told by others, and what it tells them: notices with bytes.
use super::drive::{OWNS, Tested};
use crate::fixtures::cases_hold;
use std::test::Fail;

const NEW: &str = "what others tell is kept in the order in which it was heard
heard nothing
hears hello
heard hello
hears RequestLock
hears ReleasedLock
heard hello
hears there
hears hello
heard hello there hello

a tell takes no lock and posts its bytes
1 takes tell, dir-find id-7, notify-hello done done, takes tell, dir-find none NoImage, takes tell
1 dir-find id-7, notify-hello none NoImage
free 1
0 waits
heard nothing";

#[test]
fn notices_are_kept(rt: HostRuntime) -> Result<(), Fail> {
    cases_hold::<Tested>(rt.alloc(), "", NEW)?;
    Ok(())
}

const OWNERS: &str = "what was told stays whatever the client does
heard nothing
hears hello
hears RequestLock
0 lock-drop done, notify-ReleasedLock done
1 takes write-0, dir-find id-7, header-get header, lock-take fenced Fenced, takes create-outside
1 refused BadShape
heard hello

a tell is held back by nobody and holds nobody back
1 takes quiesce, dir-find id-7, header-get header, header-get header done, takes tell
1 dir-find id-7
hears RequestLock
2 takes resume, dir-find id-7 done
0 lock-drop done
1 notify-hello done done
0 notify-ReleasedLock done, waits
free 1";

#[test]
fn an_owner_hears(rt: HostRuntime) -> Result<(), Fail> {
    cases_hold::<Tested>(rt.alloc(), OWNS, OWNERS)?;
    Ok(())
}
