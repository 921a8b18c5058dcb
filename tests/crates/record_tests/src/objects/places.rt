//! Free places of an object, for pages and for sheaves of pages, are taken again.
use rbd_kinds::{NoMemory, SnapContext, SnapId, SnapIds};
use rbd_object::PagedObject;
use std::alloc::Global;
use std::test::Fail;

/// The context of a snapshot that was just taken, beside which there may be older ones.
fn taken(alloc: Global, number: u32) -> Result<SnapContext, NoMemory> {
    let mut snaps = Vec::new(alloc);
    snaps.push(SnapId(number))?;
    Ok(SnapContext {
        seq: SnapId(number),
        snaps: SnapIds::from_vec(snaps),
    })
}

/// Writes a byte on a page, one of the first 512.
fn write(object: &mut PagedObject, given: &SnapContext, page: u32) -> Result<(), NoMemory> {
    object.write(given, (page % 512) as u64 * 4096, &[7])
}

/// Writes after a snapshot, on a page of each of three sheaves.
fn write_three(alloc: Global, object: &mut PagedObject, number: u32) -> Result<(), NoMemory> {
    let given = taken(alloc, number)?;
    for sheaf in 0..3 {
        write(object, &given, sheaf * 128 + number % 40)?;
    }
    Ok(())
}

/// An object of three sheaves, the last of which isn't full: 300 pages.
fn fill(alloc: Global, object: &mut PagedObject) -> Result<(), NoMemory> {
    write(object, &taken(alloc, 0)?, 299)
}

/// Whether there are as many places.
fn has_places(object: &PagedObject, pages: u64, sheaves: u64) -> bool {
    object.page_places() == pages && object.sheaf_places() == sheaves
}

#[test]
fn one_free_place_is_taken_again(rt: HostRuntime) -> Result<(), Fail> {
    let alloc = rt.alloc();
    let mut object = PagedObject::new(alloc);
    fill(alloc, &mut object)?;
    assert!(rt; has_places(&object, 300, 3));
    for number in 1..=10_000 {
        write(&mut object, &taken(alloc, number)?, number * 7 % 300)?;
        object.trim(&[]);
    }
    assert!(rt; has_places(&object, 301, 4));
    Ok(())
}

/// Five snapshots, after each of which three sheaves are changed.
fn take_five(alloc: Global, object: &mut PagedObject, first: u32) -> Result<(), NoMemory> {
    for number in 0..5 {
        write_three(alloc, object, first.wrapping_add(number))?;
    }
    Ok(())
}

#[test]
fn many_free_places_are_taken_again(rt: HostRuntime) -> Result<(), Fail> {
    let alloc = rt.alloc();
    let mut object = PagedObject::new(alloc);
    fill(alloc, &mut object)?;
    for round in 0..40 {
        take_five(alloc, &mut object, round * 5 + 1)?;
        assert!(rt; has_places(&object, 315, 18));
        object.trim(&[]);
        assert!(rt; has_places(&object, 315, 18));
        assert_eq!(rt; object.pages(), 300);
    }
    Ok(())
}

/// Removes the head, and fills it anew.
fn refill(alloc: Global, object: &mut PagedObject) -> Result<(), NoMemory> {
    object.remove(&taken(alloc, 0)?)?;
    fill(alloc, object)
}

#[test]
fn the_places_of_a_removed_head_are_taken_again(rt: HostRuntime) -> Result<(), Fail> {
    let alloc = rt.alloc();
    let mut object = PagedObject::new(alloc);
    fill(alloc, &mut object)?;
    for _ in 0..20 {
        refill(alloc, &mut object)?;
    }
    assert!(rt; has_places(&object, 300, 3));
    Ok(())
}
