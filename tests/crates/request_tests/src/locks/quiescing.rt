//! `quiesce`, and `resume`, which ends it: what they wait for, and what the site is asked, one
//! after another, was written down by hand from the diagrams.
//!
//! A secondary is quiesced at the look under the lock, and a resume waits for nothing. An image
//! that is gone, and the fence, end both at each operation.
use super::asked::table_holds;

const ROWS: &str = "\
quiesce|owned|done waits 0|dir-find disk: id, join alone, header-get: header, hold, \
    header-get: header
quiesce|owner c1 watcher c3 watched gone 1|NoImage|dir-find disk: none
quiesce|owner c1 watcher c3 watched gone 2|NoImage|dir-find disk: id, join alone, header-get: none
quiesce|owner c1 watcher c3 watched gone 3|NoImage|dir-find disk: id, join alone, \
    header-get: header, hold, header-get: none
quiesce|owner c1 watcher c3 watched fenced 1|Fenced|dir-find disk: fenced
quiesce|owner c1 watcher c3 watched fenced 2|Fenced|dir-find disk: id, join alone, \
    header-get: fenced
quiesce|owner c1 watcher c3 watched fenced 3|Fenced|dir-find disk: id, join alone, \
    header-get: header, hold, header-get: fenced
resume|owned|done waits 0|dir-find disk: id
resume|owner c1 watcher c3 watched gone 1|NoImage|dir-find disk: none
resume|owner c1 watcher c3 watched fenced 1|Fenced|dir-find disk: fenced";

#[test]
fn images_are_quiesced_so(rt: HostRuntime) {
    table_holds(&rt, rt.alloc(), ROWS);
}
