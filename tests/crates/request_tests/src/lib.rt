//! Tests of machines, of a session and of a client, through public calls.
//!
//! | module | subject |
//! |---|---|
//! | `fixtures` | what the others share: headers, commands, answers and replies by words, and drivers |
//! | `requests` | the way of a change, the parts of requests, and the requests of a client |
//! | `zeros` | what zeros and replaces objects, and sets a size |
//! | `changes` | requests that zero, resize, roll back, remove or rename, and `du` |
//! | `locks` | what takes, gives up and counts locks |
//! | `sessions` | slots, and who of a session's requests waits for whom |
//! | `clients` | when a lock is taken and let go, and who waits meanwhile |
//! | `examples` | the examples of front pages |
//!
//! They are tables, of texts that `fixtures` reads. What a row wants was worked out by hand, from
//! the rules in words or from a diagram.

mod changes;
mod clients;
mod examples;
mod fixtures;
mod locks;
mod requests;
mod sessions;
mod zeros;
