//! Tests of the small records, with a file for each crate.
mod fence;
mod guard;
mod header;
mod journal;
mod lines;
mod map;
mod registry;
mod watch;
