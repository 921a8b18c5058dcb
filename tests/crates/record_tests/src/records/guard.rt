//! Turns at objects, worked out by hand.
use rbd_guard::{Guard, Ticket};
use std::process::Abort;
use std::test::Fail;

fn is_first(guard: &Guard, object: u64, ticket: Ticket) -> bool {
    guard.first(object) == Some(ticket)
}

fn is_next(guard: &Guard, request: u32, ticket: Ticket) -> bool {
    guard.next_of(request) == Some(ticket)
}

/// Two requests enter object 7, and the first also object 8.
fn turns(rt: &impl Abort, guard: &mut Guard) -> Result<(), Fail> {
    guard.reserve(2)?;
    let first = guard.enter(1, 7)?;
    let second = guard.enter(2, 7)?;
    let third = guard.enter(1, 8)?;
    assert!(rt; is_first(guard, 7, first));
    assert!(rt; is_first(guard, 8, third));
    assert!(rt; guard.first(9).is_none());
    assert!(rt; guard.next_of(3).is_none());
    assert!(rt; is_next(guard, 1, first));
    first_leaves(rt, guard);
    assert!(rt; is_first(guard, 7, second));
    assert!(rt; is_first(guard, 8, third));
    assert!(rt; is_next(guard, 1, third));
    assert!(rt; is_next(guard, 2, second));
    Ok(())
}

/// The first at object 7 leaves.
fn first_leaves(rt: &impl Abort, guard: &mut Guard) {
    let turn = guard.first(7).expect(rt, "the first ticket");
    guard.leave(turn);
}

#[test]
fn turns_at_an_object(rt: HostRuntime) -> Result<(), Fail> {
    let mut guard = Guard::new(rt.alloc());
    turns(&rt, &mut guard)
}

/// Gives a request tickets for objects 7 and 8.
fn enter_both(guard: &mut Guard, request: u32) -> Result<(Ticket, Ticket), Fail> {
    let at_seven = guard.enter(request, 7)?;
    let at_eight = guard.enter(request, 8)?;
    Ok((at_seven, at_eight))
}

/// Two requests enter objects 7 and 8, and all tickets of the first leave.
fn all_leave(rt: &impl Abort, guard: &mut Guard) -> Result<(), Fail> {
    enter_both(guard, 1)?;
    let (at_seven, at_eight) = enter_both(guard, 2)?;
    assert!(rt; guard.leave_all(1) == 2);
    assert!(rt; is_first(guard, 7, at_seven));
    assert!(rt; is_first(guard, 8, at_eight));
    assert!(rt; guard.next_of(1).is_none());
    assert!(rt; is_next(guard, 2, at_seven));
    assert!(rt; guard.leave_all(1) == 0);
    Ok(())
}

#[test]
fn all_of_a_request_leave(rt: HostRuntime) -> Result<(), Fail> {
    let mut guard = Guard::new(rt.alloc());
    all_leave(&rt, &mut guard)
}

/// Of three at an object the second leaves: the third comes behind the first, and a number isn't
/// given twice.
fn middle_leaves(rt: &impl Abort, guard: &mut Guard) -> Result<(), Fail> {
    let (first, _) = enter_both(guard, 1)?;
    enter_both(guard, 2)?;
    let (third, _) = enter_both(guard, 3)?;
    assert!(rt; guard.leave_all(2) == 2);
    assert!(rt; guard.leave_all(1) == 2);
    assert!(rt; is_first(guard, 7, third));
    assert!(rt; is_next(guard, 3, third));
    let (later, _) = enter_both(guard, 1)?;
    assert!(rt; later != first);
    assert!(rt; is_next(guard, 1, later));
    Ok(())
}

#[test]
fn one_leaves_from_the_middle(rt: HostRuntime) -> Result<(), Fail> {
    let mut guard = Guard::new(rt.alloc());
    middle_leaves(&rt, &mut guard)
}
