//! Tests of the reader of scripts. Each calls [`rbd_script::read`] alone. Expected values were worked
//! out by hand, from the rules in words.
//!
//! A table is a text with a row for each case, `WANTED|SCRIPT`, in which `;` stands for a line feed.
mod faults;
mod forms;
mod limits;
mod order;
mod prefixes;
mod sessions;
mod taken;

use rbd_script::{ScriptFault, read};
use std::alloc::Global;
use std::process::Abort;

/// How many sessions and lines the bytes have, or the line and the cause of their fault.
fn told(alloc: Global, bytes: &[u8], threads: bool) -> Option<String> {
    match read(alloc, bytes, threads) {
        Ok(script) => {
            let (sessions, lines) = (script.sessions.len(), script.lines.len());
            format!(in alloc; "{sessions} sessions, {lines} lines").ok()
        }
        Err(ScriptFault::Line(fault)) => {
            format!(in alloc; "line {}: {}", fault.line, fault.cause).ok()
        }
        Err(ScriptFault::NoMemory) => None,
    }
}

fn is_told(alloc: Global, bytes: &[u8], threads: bool, want: &str) -> bool {
    match told(alloc, bytes, threads) {
        Some(text) => text.as_str() == want,
        None => false,
    }
}

/// The line behind `client c1 a`.
fn behind_client(alloc: Global, line: &str) -> Option<Vec<u8>> {
    let mut text = Vec::from_slice(alloc, b"client c1 a\n").ok()?;
    text.extend_from_slice(line.as_bytes()).ok()?;
    Some(text)
}

fn behind_client_is_told(alloc: Global, line: &str, want: &str) -> bool {
    match behind_client(alloc, line) {
        Some(text) => is_told(alloc, text.as_slice(), false, want),
        None => false,
    }
}

/// Pushes a byte, a line feed for `;`, and tells whether there was memory for it.
fn push_unfolded(text: &mut Vec<u8>, byte: u8) -> bool {
    text.push(if byte == b';' { b'\n' } else { byte }).is_ok()
}

fn unfolded(alloc: Global, script: &str) -> Option<Vec<u8>> {
    let mut text = Vec::new(alloc);
    for byte in script.bytes() {
        if !push_unfolded(&mut text, byte) {
            return None;
        }
    }
    Some(text)
}

/// Whether what is told of a row's script is what the row wants.
fn row_holds(alloc: Global, threads: bool, row: &str) -> bool {
    let Some((want, script)) = row.split_once('|') else {
        return false;
    };
    match unfolded(alloc, script) {
        Some(text) => is_told(alloc, text.as_slice(), threads, want),
        None => false,
    }
}

fn each_row_holds(rt: &impl Abort, alloc: Global, threads: bool, rows: &str) {
    for row in rows.split('\n') {
        assert!(rt; row_holds(alloc, threads, row), "{row}");
    }
}
