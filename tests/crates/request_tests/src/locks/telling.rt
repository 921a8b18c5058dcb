//! `tell`: what the site is asked, one operation after another, was written down by hand from the
//! diagram. It hands on its bytes; an image that is gone, and the fence, end it.
use super::asked::table_holds;

const ROWS: &str = "\
tell|lost|done waits 0|dir-find disk: id, notify Custom hello: done
tell|owner c3 watcher c3 watched gone 1|NoImage|dir-find disk: none
tell|owner c3 watcher c3 watched gone 2|NoImage|dir-find disk: id, notify Custom hello: none
tell|owner c3 watcher c3 watched fenced 1|Fenced|dir-find disk: fenced
tell|owner c3 watcher c3 watched fenced 2|Fenced|dir-find disk: id, notify Custom hello: fenced";

#[test]
fn bytes_are_told_so(rt: HostRuntime) {
    table_holds(&rt, rt.alloc(), ROWS);
}
