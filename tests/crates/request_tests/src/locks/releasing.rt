//! Each release: what the site is asked was written down by hand from the diagram. And what a
//! session counts as its own.
//!
//! A lock is let go and told of; one that was broken isn't told of. No fault refuses a release.
use super::asked::table_holds;
use crate::fixtures::{IMAGE, OWNER};
use rbd_kinds::{Answer, HeaderOp, Op};
use rbd_lock::owns_lock_after;

const ROWS: &str = "\
release|owned|done waits 0|lock-drop: done, notify ReleasedLock: done
release|owner c2 watcher c3|done waits 0|lock-drop: changed
release|owner c1 watcher c3 watched gone 1|done waits 0|lock-drop: none
release|owner c1 watcher c3 watched fenced 1|done waits 0|lock-drop: fenced
release|owner c1 watcher c3 watched gone 2|done waits 0|lock-drop: done, notify ReleasedLock: none
release|owner c1 watcher c3 watched fenced 2|done waits 0|lock-drop: done, \
    notify ReleasedLock: fenced";

#[test]
fn locks_are_let_go_so(rt: HostRuntime) {
    table_holds(&rt, rt.alloc(), ROWS);
}

// ---- what a session counts as its own

/// An operation on the header of the image.
fn on_header(op: HeaderOp) -> Op {
    Op::Header { image: IMAGE, op }
}

/// Whether a session counts the lock as its own behind an operation, where it did before or didn't.
fn owns(owned: bool, op: HeaderOp, answer: Answer) -> bool {
    owns_lock_after(owned, &on_header(op), &answer)
}

#[test]
fn a_lock_is_counted_from_its_take_to_its_end(rt: HostRuntime) {
    assert!(rt; owns(false, HeaderOp::LockTake, Answer::Done));
    assert!(rt; !owns(false, HeaderOp::LockTake, Answer::Held(OWNER)));
    assert!(rt; !owns(false, HeaderOp::Get, Answer::Done));
    assert!(rt; owns(true, HeaderOp::Watch, Answer::Fenced));
    assert!(rt; !owns(true, HeaderOp::LockDrop, Answer::Done));
    assert!(rt; !owns(true, HeaderOp::LockDrop, Answer::Changed));
    assert!(rt; !owns(true, HeaderOp::LockDrop, Answer::Absent));
    assert!(rt; !owns(true, HeaderOp::LockDrop, Answer::Fenced));
    assert!(rt; !owns(true, HeaderOp::Remove, Answer::Done));
    assert!(rt; owns(true, HeaderOp::Remove, Answer::Changed));
}
