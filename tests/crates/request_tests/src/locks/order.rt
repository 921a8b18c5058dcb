//! In which order images that were asked for come.
use super::steps::{image_at, step};
use rbd_kinds::{NoMemory, SiteId};
use rbd_lock::Locks;
use std::alloc::Global;
use std::process::Abort;

/// The images whose locks are taken and asked for, in this order. The id of each at site B is below
/// one at site A.
const TAKEN: [(SiteId, u32); 5] = [
    (SiteId::B, 3),
    (SiteId::A, 9),
    (SiteId::B, 1),
    (SiteId::A, 2),
    (SiteId::A, 700),
];

/// By site, then by id.
const IN_ORDER: [(SiteId, u32); 5] = [
    (SiteId::A, 2),
    (SiteId::A, 9),
    (SiteId::A, 700),
    (SiteId::B, 1),
    (SiteId::B, 3),
];

fn ask_all(alloc: Global, locks: &mut Locks) -> Result<bool, NoMemory> {
    for (site, image) in TAKEN {
        let at = image_at(site, image);
        let taken = step(alloc, locks, &at, "lock-take done")?;
        let asked = step(alloc, locks, &at, "RequestLock")?;
        if !taken || !asked {
            return Ok(false);
        }
    }
    Ok(true)
}

/// Whether these images were asked for, and no other, in this order.
fn come(locks: &Locks, wanted: &[(SiteId, u32)]) -> bool {
    let mut behind = None;
    for (site, image) in wanted {
        let next = locks.next_asked(behind);
        if next != Some(image_at(*site, *image)) {
            return false;
        }
        behind = next;
    }
    locks.next_asked(behind).is_none()
}

fn go_over(rt: &impl Abort, alloc: Global, locks: &mut Locks) -> Result<(), NoMemory> {
    assert!(rt; come(locks, &[]));
    assert!(rt; ask_all(alloc, locks)?);
    assert!(rt; come(locks, &IN_ORDER));
    assert!(rt; locks.next_asked(Some(image_at(SiteId::A, 10))) == Some(image_at(SiteId::A, 700)));
    assert!(rt; step(alloc, locks, &image_at(SiteId::A, 2), "lock-drop changed")?);
    assert!(rt; step(alloc, locks, &image_at(SiteId::B, 3), "lock-take done")?);
    assert!(rt; come(locks, &IN_ORDER[1..4]));
    Ok(())
}

#[test]
fn asked_images_come_in_order(rt: HostRuntime) {
    let mut locks = Locks::new(rt.alloc());
    let went = go_over(&rt, rt.alloc(), &mut locks);
    assert!(rt; went.is_ok());
}
