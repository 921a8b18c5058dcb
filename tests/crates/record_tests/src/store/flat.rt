//! Each effect once, with the bytes worked out by hand, and the answers of a read.
use crate::holds;
use rbd_flat::{Effect, Extents, FlatFault, FlatSite, Series};
use rbd_kinds::{Bytes, Extent, ImageId, Name, NoMemory, Role, SnapId, SnapStatus};
use std::alloc::Global;
use std::process::Abort;
use std::test::Fail;

const DISK: ImageId = ImageId(1);

const COPY: ImageId = ImageId(2);

const FIRST: SnapId = SnapId(1);

fn name(rt: &impl Abort, alloc: Global, text: &[u8]) -> Result<Name, NoMemory> {
    Ok(Name::parse(Bytes::from_slice(alloc, text)?).expect(rt, "a name"))
}

fn places(alloc: Global, at: &[Extent]) -> Result<Extents, NoMemory> {
    let mut places = Extents::with_capacity(alloc, at.len())?;
    for extent in at {
        let (first, step, count) = (*extent, 0, 1);
        places.push(Series { first, step, count })?;
    }
    Ok(places)
}

/// Takes a step. The effect goes with the call, so that no test lets one go itself.
fn take(site: &mut FlatSite, effect: Effect) -> Result<(), NoMemory> {
    site.after(&effect)
}

/// Asks for as many bytes as are wanted, from the first one on.
fn shows(rt: &impl Abort, site: &FlatSite, snap: Option<SnapId>, want: &[u8]) {
    image_shows(rt, site, DISK, snap, want);
}

/// The same of any image.
fn image_shows(
    rt: &impl Abort,
    site: &FlatSite,
    image: ImageId,
    snap: Option<SnapId>,
    want: &[u8],
) {
    let len = want.len() as u64;
    match site.read(image, snap, &Extent { at: 0, len }) {
        Ok(read) => assert_eq!(rt; read.as_slice(), want),
        Err(fault) => panic!(rt; "{fault}"),
    }
}

/// An image of 8 bytes.
fn created(alloc: Global) -> Result<FlatSite, NoMemory> {
    let mut site = FlatSite::new(alloc);
    let (image, size, role) = (DISK, 8, Role::Plain);
    take(&mut site, Effect::Create { image, size, role })?;
    Ok(site)
}

/// 6 and 7 take 1 and 2; 3 and 4 would go past the end; 1 and 2 take 5 and 6.
fn paint(alloc: Global, site: &mut FlatSite) -> Result<(), NoMemory> {
    let at = places(alloc, &[Extent { at: 6, len: 4 }, Extent { at: 1, len: 2 }])?;
    let bytes = Bytes::from_slice(alloc, &[1, 2, 3, 4, 5, 6])?;
    let image = DISK;
    take(site, Effect::Piece { image, at, bytes })
}

fn written(alloc: Global) -> Result<FlatSite, NoMemory> {
    let mut site = created(alloc)?;
    paint(alloc, &mut site)?;
    Ok(site)
}

fn take_snapshot(rt: &impl Abort, alloc: Global, site: &mut FlatSite) -> Result<(), NoMemory> {
    let name = name(rt, alloc, b"first")?;
    let (image, snap) = (DISK, FIRST);
    take(site, Effect::Snap { image, snap, name })
}

/// The same with a snapshot.
fn taken(rt: &impl Abort, alloc: Global) -> Result<FlatSite, NoMemory> {
    let mut site = written(alloc)?;
    take_snapshot(rt, alloc, &mut site)?;
    Ok(site)
}

/// The fault of a read, if it has one.
fn fault(
    site: &FlatSite,
    image: ImageId,
    snap: Option<SnapId>,
    at: u64,
    len: u64,
) -> Option<FlatFault> {
    site.read(image, snap, &Extent { at, len }).err()
}

fn blank(alloc: Global, site: &mut FlatSite) -> Result<(), NoMemory> {
    let at = places(alloc, &[Extent { at: 2, len: 5 }])?;
    take(site, Effect::Zero { image: DISK, at })
}

#[test]
fn bytes_after_a_piece_and_zeros(rt: HostRuntime) -> Result<(), Fail> {
    let mut site = written(rt.alloc())?;
    shows(&rt, &site, None, &[0, 5, 6, 0, 0, 0, 1, 2]);
    blank(rt.alloc(), &mut site)?;
    shows(&rt, &site, None, &[0, 5, 0, 0, 0, 0, 0, 2]);
    Ok(())
}

/// Bytes of 1, 2, 3 and so on at the places of a series.
fn paint_series(alloc: Global, site: &mut FlatSite, series: Series) -> Result<(), NoMemory> {
    let mut at = Extents::with_capacity(alloc, 1)?;
    at.push(series)?;
    let bytes = Bytes::from_slice(alloc, &[1, 2, 3, 4, 5, 6, 7, 8])?;
    take(
        site,
        Effect::Piece {
            image: DISK,
            at,
            bytes,
        },
    )
}

/// Two bytes at 0, 3 and 6, and at 9, which is past the end. Then one at 7, and one past all
/// numbers.
#[test]
fn bytes_of_a_series(rt: HostRuntime) -> Result<(), Fail> {
    let mut site = created(rt.alloc())?;
    let first = Extent { at: 0, len: 2 };
    let (step, count) = (3, 4);
    paint_series(rt.alloc(), &mut site, Series { first, step, count })?;
    shows(&rt, &site, None, &[1, 2, 0, 3, 4, 0, 5, 6]);
    let first = Extent { at: 7, len: 1 };
    let (step, count) = (u64::MAX, 2);
    paint_series(rt.alloc(), &mut site, Series { first, step, count })?;
    shows(&rt, &site, None, &[1, 2, 0, 3, 4, 0, 5, 1]);
    Ok(())
}

fn resize(site: &mut FlatSite, size: u64) -> Result<(), NoMemory> {
    take(site, Effect::Size { image: DISK, size })
}

/// Cuts the image, and makes it longer again.
fn cut(site: &mut FlatSite) -> Result<(), NoMemory> {
    resize(site, 2)?;
    resize(site, 4)
}

#[test]
fn a_cut_is_for_good_and_a_snapshot_stays(rt: HostRuntime) -> Result<(), Fail> {
    let mut site = taken(&rt, rt.alloc())?;
    cut(&mut site)?;
    shows(&rt, &site, None, &[0, 5, 0, 0]);
    shows(&rt, &site, Some(FIRST), &[0, 5, 6, 0, 0, 0, 1, 2]);
    Ok(())
}

/// Makes a clone of the snapshot, and takes the snapshot away.
fn clone_and_forget(site: &mut FlatSite) -> Result<(), NoMemory> {
    let (image, parent, snap) = (COPY, DISK, FIRST);
    take(
        site,
        Effect::Clone {
            image,
            parent,
            snap,
        },
    )?;
    take(site, Effect::Unsnap { image: DISK, snap })
}

/// Whether the snapshot, and then the image, isn't there any more.
fn is_gone(site: &mut FlatSite) -> Result<bool, NoMemory> {
    clone_and_forget(site)?;
    let snap = fault(site, DISK, Some(FIRST), 0, 1) == Some(FlatFault::NoSnap);
    take(site, Effect::Gone { image: DISK })?;
    Ok(snap && fault(site, DISK, None, 0, 1) == Some(FlatFault::NoImage))
}

#[test]
fn a_clone_outlives_its_parent(rt: HostRuntime) -> Result<(), Fail> {
    let mut site = taken(&rt, rt.alloc())?;
    assert!(rt; holds(is_gone(&mut site)));
    image_shows(&rt, &site, COPY, None, &[0, 5, 6, 0, 0, 0, 1, 2]);
    Ok(())
}

/// Whether a word stands in the site as it is printed for a look. Links, marks and roles stand
/// there alone: no call tells them.
fn prints(alloc: Global, site: &FlatSite, word: &str) -> bool {
    match format!(in alloc; "{site:?}") {
        Ok(text) => text.as_str().contains(word),
        Err(_) => false,
    }
}

/// The snapshot of DISK linked to COPY, or no more.
fn linked(site: &mut FlatSite, to: bool) -> Result<(), NoMemory> {
    let (parent, snap, child) = (DISK, FIRST, COPY);
    if to {
        return site.after(&Effect::Link {
            parent,
            snap,
            child,
        });
    }
    site.after(&Effect::Unlink {
        parent,
        snap,
        child,
    })
}

fn marked(site: &mut FlatSite, status: SnapStatus) -> Result<(), NoMemory> {
    let (image, snap) = (DISK, FIRST);
    site.after(&Effect::Status {
        image,
        snap,
        status,
    })
}

fn given_role(site: &mut FlatSite, role: Role) -> Result<(), NoMemory> {
    site.after(&Effect::Role { image: DISK, role })
}

/// Whether the snapshot is linked, and then no more.
fn is_linked(alloc: Global, site: &mut FlatSite) -> Result<bool, NoMemory> {
    let before = prints(alloc, site, "Link {");
    linked(site, true)?;
    let after = prints(alloc, site, "Link {");
    linked(site, false)?;
    Ok(!before && after && !prints(alloc, site, "Link {"))
}

/// Whether the snapshot is marked, and the image given a role.
fn is_marked(alloc: Global, site: &mut FlatSite) -> Result<bool, NoMemory> {
    let before = prints(alloc, site, "Unprotected") && prints(alloc, site, "role: Plain");
    marked(site, SnapStatus::Protected)?;
    given_role(site, Role::Primary)?;
    let after = prints(alloc, site, "status: Protected") && prints(alloc, site, "role: Primary");
    Ok(before && after)
}

#[test]
fn links_and_marks_are_taken(rt: HostRuntime) -> Result<(), Fail> {
    let mut site = taken(&rt, rt.alloc())?;
    assert!(rt; holds(is_linked(rt.alloc(), &mut site)));
    assert!(rt; holds(is_marked(rt.alloc(), &mut site)));
    // None of these changes a byte.
    shows(&rt, &site, None, &[0, 5, 6, 0, 0, 0, 1, 2]);
    shows(&rt, &site, Some(FIRST), &[0, 5, 6, 0, 0, 0, 1, 2]);
    Ok(())
}

fn add_name(rt: &impl Abort, alloc: Global, site: &mut FlatSite) -> Result<(), NoMemory> {
    let name = name(rt, alloc, b"disk")?;
    take(site, Effect::Name { name, image: DISK })
}

fn rename(rt: &impl Abort, alloc: Global, site: &mut FlatSite) -> Result<(), NoMemory> {
    let from = name(rt, alloc, b"disk")?;
    let to = name(rt, alloc, b"data")?;
    take(site, Effect::Rename { from, to })
}

fn finds(
    rt: &impl Abort,
    alloc: Global,
    site: &FlatSite,
    text: &[u8],
    want: bool,
) -> Result<(), NoMemory> {
    let name = name(rt, alloc, text)?;
    assert_eq!(rt; site.find(&name), if want { Some(DISK) } else { None });
    Ok(())
}

/// Gives the image a name, another one, and none.
fn name_moves(rt: &impl Abort, alloc: Global, site: &mut FlatSite) -> Result<(), NoMemory> {
    add_name(rt, alloc, site)?;
    finds(rt, alloc, site, b"disk", true)?;
    rename(rt, alloc, site)?;
    finds(rt, alloc, site, b"disk", false)?;
    finds(rt, alloc, site, b"data", true)?;
    take(site, Effect::NameFree { image: DISK })?;
    finds(rt, alloc, site, b"data", false)
}

#[test]
fn a_name_moves_and_goes(rt: HostRuntime) -> Result<(), Fail> {
    let mut site = FlatSite::new(rt.alloc());
    name_moves(&rt, rt.alloc(), &mut site)?;
    Ok(())
}

/// Whether a read of an image, of a snapshot and of an extent that isn't there has its fault.
fn has_its_faults(site: &FlatSite) -> bool {
    let images = fault(site, COPY, Some(FIRST), 9, 0) == Some(FlatFault::NoImage);
    let snaps = fault(site, DISK, Some(FIRST), 9, 0) == Some(FlatFault::NoSnap);
    let empty = fault(site, DISK, None, 0, 0) == Some(FlatFault::BadRange);
    let past = fault(site, DISK, None, 7, 2) == Some(FlatFault::BadRange);
    images && snaps && empty && past && fault(site, DISK, None, 7, 1).is_none()
}

#[test]
fn faults_of_a_read(rt: HostRuntime) -> Result<(), Fail> {
    let site = written(rt.alloc())?;
    assert!(rt; has_its_faults(&site));
    Ok(())
}
