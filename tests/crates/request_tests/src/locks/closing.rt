//! `close`: what it waits for, and what the site is asked, one after another, was written down by
//! hand from the diagram.
//!
//! It gives up the lock and the watch, and without the lock the watch alone. An image that is gone,
//! and the fence, end it at each operation.
use super::asked::table_holds;

const ROWS: &str = "\
close|owned|done waits 0 owner none unwatched|dir-find disk: id, join alone, hold, \
    lock-drop: done, notify ReleasedLock: done, unwatch: done
close|lost|done waits 0 owner c3 unwatched|dir-find disk: id, join alone, hold, \
    lock-drop: changed, unwatch: done
close|owner c1 watcher c3 watched gone 1|NoImage|dir-find disk: none
close|owner c1 watcher c3 watched gone 2|NoImage|dir-find disk: id, join alone, hold, \
    lock-drop: none
close|owner c1 watcher c3 watched gone 3|NoImage|dir-find disk: id, join alone, hold, \
    lock-drop: done, notify ReleasedLock: none
close|owner c1 watcher c3 watched gone 4|NoImage|dir-find disk: id, join alone, hold, \
    lock-drop: done, notify ReleasedLock: done, unwatch: none
close|owner c1 watcher c3 watched fenced 1|Fenced|dir-find disk: fenced
close|owner c1 watcher c3 watched fenced 2|Fenced|dir-find disk: id, join alone, hold, \
    lock-drop: fenced
close|owner c1 watcher c3 watched fenced 3|Fenced|dir-find disk: id, join alone, hold, \
    lock-drop: done, notify ReleasedLock: fenced
close|owner c1 watcher c3 watched fenced 4|Fenced|dir-find disk: id, join alone, hold, \
    lock-drop: done, notify ReleasedLock: done, unwatch: fenced";

#[test]
fn images_are_closed_so(rt: HostRuntime) {
    table_holds(&rt, rt.alloc(), ROWS);
}
