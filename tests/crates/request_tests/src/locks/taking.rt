//! Each way to a lock: what the site is asked, one operation after another, was written down by
//! hand from the diagram.
//!
//! A free lock is taken behind the watch, and at once by who watches. An owner that watches is
//! asked, and again where it keeps the lock. One that doesn't, or of which a later life does, is
//! fenced and loses the lock, in the next round where its watch expires. Who was faster is looked
//! for anew. An owner that never lets go is asked for ever, all but the watch marked as waiting. An
//! image that is gone, and the fence, end the way at each operation.
use super::asked::table_holds;

const ROWS: &str = "\
take||done waits 0 owner c1 watched blocked none|watch: done, lock-take: done
take-watching|watched|done waits 0 owner c1 watched blocked none|lock-take: done
take|owner c2 watcher c2|done waits 3 owner c1 watched blocked none|watch: done, \
    lock-take: held c2, watchers-get: instances, notify RequestLock: done, lock-take: done
take-watching|watched owner c2 watcher c2 patience 2|done waits 6 owner c1 watched blocked none|\
    lock-take: held c2, watchers-get: instances, notify RequestLock: done, lock-take: held c2, \
    watchers-get: instances, notify RequestLock: done, lock-take: done
take|owner c2 watcher c3|done waits 2 owner c1 watched blocked c2|watch: done, \
    lock-take: held c2, watchers-get: instances, block-add c2: done, lock-break c2: done, \
    lock-take: done
take-watching|watched owner c2 watcher c2.1|done waits 2 owner c1 watched blocked c2|\
    lock-take: held c2, watchers-get: instances, block-add c2: done, lock-break c2: done, \
    lock-take: done
take-watching|watched owner c2 watcher c2 patience 9 expires|\
    done waits 5 owner c1 watched blocked c2|lock-take: held c2, watchers-get: instances, \
    notify RequestLock: done, lock-take: held c2, watchers-get: instances, block-add c2: done, \
    lock-break c2: done, lock-take: done
take-watching|watched owner c2 watcher c3 faster c3|done waits 5 owner c1 watched blocked c2|\
    lock-take: held c2, watchers-get: instances, block-add c2: done, lock-break c2: changed, \
    lock-take: held c3, watchers-get: instances, notify RequestLock: done, lock-take: done
take|owner c2 watcher c2 patience 255|more operations 20 waits 19 owner c2|
take|owner c2 watcher c3 gone 1|NoImage|watch: none
take|owner c2 watcher c3 gone 2|NoImage|watch: done, lock-take: none
take|owner c2 watcher c3 gone 3|NoImage|watch: done, lock-take: held c2, watchers-get: none
take|owner c2 watcher c2 gone 4|NoImage|watch: done, lock-take: held c2, \
    watchers-get: instances, notify RequestLock: none
take|owner c2 watcher c3 gone 5|NoImage|watch: done, lock-take: held c2, \
    watchers-get: instances, block-add c2: done, lock-break c2: none
take|owner c2 watcher c3 fenced 1|Fenced|watch: fenced
take|owner c2 watcher c3 fenced 2|Fenced|watch: done, lock-take: fenced
take|owner c2 watcher c3 fenced 3|Fenced|watch: done, lock-take: held c2, watchers-get: fenced
take|owner c2 watcher c2 fenced 4|Fenced|watch: done, lock-take: held c2, \
    watchers-get: instances, notify RequestLock: fenced
take|owner c2 watcher c3 fenced 4|Fenced|watch: done, lock-take: held c2, \
    watchers-get: instances, block-add c2: fenced
take|owner c2 watcher c3 fenced 5|Fenced|watch: done, lock-take: held c2, \
    watchers-get: instances, block-add c2: done, lock-break c2: fenced";

#[test]
fn locks_are_taken_so(rt: HostRuntime) {
    table_holds(&rt, rt.alloc(), ROWS);
}
