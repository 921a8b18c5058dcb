//! Watchers in order, and their mail, worked out by hand.
use rbd_kinds::{ImageId, Instance, NoMemory, NoticeKind, SessionNo, SiteId};
use rbd_watch::{Mail, Watchers};
use std::process::Abort;
use std::test::Fail;

const fn instance(session: u8, life: u32) -> Instance {
    Instance {
        session: SessionNo(session),
        life,
    }
}

/// Whether these are the watchers, in this order.
fn lists(watchers: &Watchers, wanted: &[Instance]) -> Result<bool, NoMemory> {
    let list = watchers.list()?;
    Ok(list.as_slice() == wanted)
}

/// One watches twice, and one comes back in its second life.
fn watch_all(watchers: &mut Watchers) -> Result<(), Fail> {
    watchers.watch(instance(3, 0))?;
    watchers.watch(instance(1, 0))?;
    watchers.watch(instance(3, 1))?;
    watchers.watch(instance(1, 0))?;
    Ok(())
}

fn keep_order(rt: &impl Abort, watchers: &mut Watchers) -> Result<(), Fail> {
    watch_all(watchers)?;
    assert!(rt; watchers.unwatch(instance(3, 0)));
    assert!(rt; !watchers.unwatch(instance(3, 0)));
    assert!(rt; lists(watchers, &[instance(1, 0), instance(3, 1)])?);
    assert!(rt; watchers.others(SessionNo(3)));
    assert!(rt; watchers.unwatch(instance(1, 0)));
    assert!(rt; !watchers.others(SessionNo(3)));
    Ok(())
}

#[test]
fn watchers_keep_their_order(rt: HostRuntime) -> Result<(), Fail> {
    let mut watchers = Watchers::new(rt.alloc());
    keep_order(&rt, &mut watchers)
}

/// Whether a notice of the sender goes to these, in this order.
fn reaches(watchers: &Watchers, sender: Instance, wanted: &[Instance]) -> Result<bool, NoMemory> {
    let receivers = watchers.receivers(sender)?;
    Ok(receivers.as_slice() == wanted)
}

/// Two senders that watch, and one of which only an older life does.
fn reach_others(rt: &impl Abort, watchers: &mut Watchers) -> Result<(), Fail> {
    watch_all(watchers)?;
    assert!(rt; reaches(watchers, instance(1, 0), &[instance(3, 0), instance(3, 1)])?);
    assert!(rt; reaches(watchers, instance(3, 0), &[instance(1, 0), instance(3, 1)])?);
    assert!(rt;
        reaches(
            watchers,
            instance(1, 1),
            &[instance(3, 0), instance(1, 0), instance(3, 1)]
        )?
    );
    Ok(())
}

#[test]
fn a_notice_reaches_the_others(rt: HostRuntime) -> Result<(), Fail> {
    let mut watchers = Watchers::new(rt.alloc());
    assert!(rt; reaches(&watchers, instance(1, 0), &[])?);
    reach_others(&rt, &mut watchers)
}

/// Three lives of a session watch, of which the oldest registered neither first nor last.
fn watch_lives(watchers: &mut Watchers) -> Result<(), Fail> {
    watchers.watch(instance(2, 5))?;
    watchers.watch(instance(4, 0))?;
    watchers.watch(instance(2, 3))?;
    watchers.watch(instance(2, 9))?;
    Ok(())
}

fn name_the_oldest(rt: &impl Abort, watchers: &mut Watchers) -> Result<(), Fail> {
    watch_lives(watchers)?;
    assert!(rt; watchers.oldest(SessionNo(2)) == Some(instance(2, 3)));
    assert!(rt; watchers.oldest(SessionNo(4)) == Some(instance(4, 0)));
    assert!(rt; watchers.oldest(SessionNo(3)).is_none());
    assert!(rt; watchers.unwatch(instance(2, 3)));
    assert!(rt; watchers.oldest(SessionNo(2)) == Some(instance(2, 5)));
    Ok(())
}

#[test]
fn the_oldest_life_is_named(rt: HostRuntime) -> Result<(), Fail> {
    let mut watchers = Watchers::new(rt.alloc());
    assert!(rt; watchers.oldest(SessionNo(2)).is_none());
    name_the_oldest(&rt, &mut watchers)
}

/// Posts a notice to two instances.
fn post(mail: &mut Mail, kind: NoticeKind) -> Result<(), Fail> {
    let to = [instance(2, 0), instance(1, 4)];
    mail.post(SiteId::A, ImageId(7), instance(0, 0), &to, &kind)?;
    Ok(())
}

/// Whether a notice has this number, and goes to this instance.
fn is_to(mail: &Mail, number: u64, to: Instance) -> bool {
    match mail.get(number) {
        Some(notice) => notice.number == number && notice.to == to,
        None => false,
    }
}

fn are_numbered(rt: &impl Abort, mail: &mut Mail) -> Result<(), Fail> {
    post(mail, NoticeKind::RequestLock)?;
    post(mail, NoticeKind::ReleasedLock)?;
    assert!(rt; mail.count() == 4);
    assert!(rt; mail.get(0).is_none());
    assert!(rt; mail.get(5).is_none());
    assert!(rt; is_to(mail, 1, instance(2, 0)));
    assert!(rt; is_to(mail, 2, instance(1, 4)));
    assert!(rt; is_to(mail, 3, instance(2, 0)));
    assert!(rt; is_to(mail, 4, instance(1, 4)));
    Ok(())
}

#[test]
fn notices_are_numbered_on(rt: HostRuntime) -> Result<(), Fail> {
    let mut mail = Mail::new(rt.alloc());
    are_numbered(&rt, &mut mail)
}
