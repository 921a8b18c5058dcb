//! Tests of a client, through its public calls: when one of its requests takes the lock of its
//! image, when a lock is let go, and who waits meanwhile.
//!
//! Each test is a text with a paragraph for each case, which `fixtures` reads and `drive` does.
//! What a row wants was worked out from the rules in prose. The requests are those of all commands
//! that change an image, and `close`, `quiesce`, `resume` and `tell`. In `again` writes are those
//! of clones, whose pieces may begin again.
//!
//! | file | subject |
//! |---|---|
//! | `taking` | the way to a lock, and who goes it |
//! | `asked` | a client that is asked for its lock, and when it lets it go |
//! | `quiescing` | `quiesce` holds changes back, and `resume` lets them go on |
//! | `closing` | `close`, and who waits behind it |
//! | `again` | a piece that begins again, where the lock is asked for or the image is to rest |
//! | `refused` | what ends a request on its way, and what it leaves |
//! | `hearing` | notices, and `tell` |
//! | `slots` | slots, and who the client is |
mod again;
mod asked;
mod closing;
mod drive;
mod hearing;
mod notices;
mod operations;
mod quiescing;
mod refused;
mod slots;
mod taking;
