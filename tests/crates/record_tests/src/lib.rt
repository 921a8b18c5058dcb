//! Tests of what lies below machines and requests, through public calls: the words of all, records,
//! objects, the site, effects, the reader of scripts and what a run prints.
//!
//! | module | subject |
//! |---|---|
//! | `kinds` | the words of all: bytes, names, operations, answers, refusals |
//! | `records` | headers, names, journals, watchers, maps, the fence, the guard, what is known of lines |
//! | `objects` | striping, objects and frames |
//! | `store` | the site, the flat-copy machine and the devices |
//! | `effects` | what an operation does to the flat site |
//! | `script` | the reader of scripts |
//! | `text` | replies and traces |
//! | `examples` | the examples of front pages |
//!
//! Expected values were worked out by hand, or by a program of another kind.

mod effects;
mod examples;
mod kinds;
mod objects;
mod records;
mod script;
mod store;
mod text;

use rbd_kinds::NoMemory;

/// Whether what is asked holds, and there was memory to find it out.
fn holds(found_out: Result<bool, NoMemory>) -> bool {
    found_out.unwrap_or(false)
}

/// Whether what is asked doesn't hold, and there was memory to find it out.
fn fails(found_out: Result<bool, NoMemory>) -> bool {
    !found_out.unwrap_or(true)
}
