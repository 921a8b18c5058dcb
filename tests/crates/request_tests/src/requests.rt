//! Tests of requests, through their public calls: the way of a change (`machine`), the parts of
//! requests (`piece`, `snaps`), the requests of a client (`write`, `read`, `admin`), and one whose
//! piece begins again (`again`).
//!
//! Each request is fed rows of a text, which `fixtures` reads: all that it wants, one after another,
//! and its reply. That was worked out from its diagram, or from the rules in prose.
mod admin;
mod again;
mod commands;
mod machine;
mod piece;
mod read;
mod snaps;
mod write;
