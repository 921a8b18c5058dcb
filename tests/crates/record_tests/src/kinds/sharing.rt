//! Which requests of an image go beside which.
use rbd_kinds::Sharing;
use std::test::Fail;

/// Whether one goes beside an alone one, a shared one, a discard and a flatten.
fn goes_beside(one: Sharing) -> [bool; 4] {
    [
        one.goes_with(&Sharing::Alone),
        one.goes_with(&Sharing::Shared),
        one.goes_with(&Sharing::Discard),
        one.goes_with(&Sharing::Flatten),
    ]
}

#[test]
fn requests_go_beside_others(rt: HostRuntime) -> Result<(), Fail> {
    assert!(rt; goes_beside(Sharing::Alone) == [false, false, false, false]);
    assert!(rt; goes_beside(Sharing::Shared) == [false, true, true, true]);
    assert!(rt; goes_beside(Sharing::Discard) == [false, true, true, false]);
    assert!(rt; goes_beside(Sharing::Flatten) == [false, true, false, false]);
    Ok(())
}
