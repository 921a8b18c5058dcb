//! The tables of `rows`, played row by row.
use super::commands::play_command;
use super::rows::{
    ALONE, BESIDE, DISCARDS, IN_USE, PARTS, REFUSALS, REMOVALS, REMOVING, RENAMES, RESIZES,
    ROLLBACKS,
};
use crate::fixtures::{RowError, Scene, holds};
use std::alloc::Global;
use std::process::Abort;
use std::test::Fail;

/// The row of a table.
#[derive(Clone, Copy)]
struct Row<'t> {
    command: &'t str,
    first: &'t str,
    own: &'t str,
    wants: &'t str,
    reply: &'t str,
}

/// The next part of a row.
fn part<'t>(rest: &mut &'t str) -> &'t str {
    let (part, left) = rest.split_once('|').unwrap_or((*rest, ""));
    *rest = left;
    part
}

fn row_of(text: &str) -> Row<'_> {
    let mut rest = text;
    let command = part(&mut rest);
    let first = part(&mut rest);
    let own = part(&mut rest);
    let wants = part(&mut rest);
    let reply = part(&mut rest);
    Row {
        command,
        first,
        own: if own.is_empty() { first } else { own },
        wants,
        reply,
    }
}

/// What a row's request meets, maybe with one of its operations fenced.
fn scene_of<'t>(alloc: Global, row: &Row<'t>, fenced: Option<usize>) -> Scene<'t> {
    Scene::new(alloc, row.first, row.own, fenced)
}

// ---- what a request wants, and its reply

/// Whether a request wants what a row says behind the way, and has its reply.
fn row_holds(alloc: Global, way: &str, row: &Row<'_>) -> Result<bool, RowError> {
    let mut scene = scene_of(alloc, row, None);
    let mut reply = String::new(alloc);
    play_command(alloc, row.command, row.first, &mut scene, &mut reply)?;
    Ok(scene.wants.as_str().strip_prefix(way) == Some(row.wants) && reply.as_str() == row.reply)
}

// ---- fences

/// Whether a request asks for nothing behind the operation that is fenced, and asked for the same
/// as else before: `None` where it has no such operation.
fn is_fenced_at(
    alloc: Global,
    row: &Row<'_>,
    at: usize,
    whole: &str,
) -> Result<Option<bool>, RowError> {
    let mut scene = scene_of(alloc, row, Some(at));
    let mut reply = String::new(alloc);
    play_command(alloc, row.command, row.first, &mut scene, &mut reply)?;
    if scene.operations <= at {
        return Ok(None);
    }
    let last = scene.operations - 1;
    let is_front = whole.starts_with(scene.wants.as_str());
    Ok(Some(last == at && is_front && reply.as_str() == "Fenced"))
}

/// Whether each operation of a row ends its request where it is fenced.
fn fences_end_it(alloc: Global, row: &Row<'_>) -> Result<bool, RowError> {
    let mut scene = scene_of(alloc, row, None);
    let mut reply = String::new(alloc);
    play_command(alloc, row.command, row.first, &mut scene, &mut reply)?;
    for at in 0..scene.operations {
        if is_fenced_at(alloc, row, at, scene.wants.as_str())? != Some(true) {
            return Ok(false);
        }
    }
    Ok(scene.operations > 2)
}

// ---- tables

fn table_holds(rt: &impl Abort, alloc: Global, way: &str, rows: &str) {
    for row in rows.split('\n') {
        assert!(rt; holds(row_holds(alloc, way, &row_of(row))), "{row}");
    }
}

fn table_is_fenced(rt: &impl Abort, alloc: Global, rows: &str) {
    for row in rows.split('\n') {
        assert!(rt; holds(fences_end_it(alloc, &row_of(row))), "{row}");
    }
}

#[test]
fn requests_want_these_one_after_another(rt: HostRuntime) -> Result<(), Fail> {
    table_holds(&rt, rt.alloc(), BESIDE, DISCARDS);
    table_holds(&rt, rt.alloc(), ALONE, RESIZES);
    table_holds(&rt, rt.alloc(), ALONE, ROLLBACKS);
    table_holds(&rt, rt.alloc(), REMOVING, REMOVALS);
    table_holds(&rt, rt.alloc(), "", PARTS);
    table_holds(&rt, rt.alloc(), "", IN_USE);
    table_holds(&rt, rt.alloc(), "", RENAMES);
    Ok(())
}

#[test]
fn requests_are_refused_behind_looks_alone(rt: HostRuntime) -> Result<(), Fail> {
    table_holds(&rt, rt.alloc(), "", REFUSALS);
    Ok(())
}

#[test]
fn the_fence_ends_a_request_at_each_operation(rt: HostRuntime) -> Result<(), Fail> {
    table_is_fenced(&rt, rt.alloc(), DISCARDS);
    table_is_fenced(&rt, rt.alloc(), RESIZES);
    table_is_fenced(&rt, rt.alloc(), ROLLBACKS);
    table_is_fenced(&rt, rt.alloc(), REMOVALS);
    table_is_fenced(&rt, rt.alloc(), PARTS);
    table_is_fenced(&rt, rt.alloc(), IN_USE);
    Ok(())
}
