//! Tests of a world, through its public calls: clients at two sites whose commands go on one
//! operation at a time, in an order that each test chooses.
//!
//! The commands are lines of one script (`script`). A test plays a row: its parts say what happens,
//! by the words of a schedule (`schedule`), what came of each event, the replies, and whatever else
//! is asked of the world then (`rows`):
//!
//! ```text
//! goes 3 1.1>end 1.1=none trim:1.0
//! │    │ │       │        └ the store trims the object 0 of image 1
//! │    │ │       └ it wants nothing, since nobody is in the slot
//! │    │ └ slot 1 of the client c1 is polled until its request has its reply
//! │    └ the client of line 3 begins its command
//! └ this happens
//! |came slot1 a1 a2 a3! nothing
//! │     │     │  │  │   └ the object 0 of image 1 isn't there
//! │     │     └──┴──┴ the operations 1 to 3 of site A; the third ends it
//! │     └ the line 3 has slot 1
//! └ this came of it
//! |replies 3 ok
//! ```
//!
//! Rows of one form are a table (`tables`), and a test is a call with a text.
//!
//! What a row wants was worked out from the rules in prose: how many operations each command has
//! (`rbd_data`, `rbd_image`, `rbd_snap`, `rbd_session`), who waits (`rbd_slots`), how a lock is
//! taken and let go (`rbd_lock`, `rbd_client`), and which bytes a flat list has at the moment at
//! which it is looked at. The numbers of a site's operations are counted from 1.
//!
//! | file | subject |
//! |---|---|
//! | `writes`, `snapshots`, `waits` | commands side by side, and which bytes they show |
//! | `maps` | object maps over a life, and the objects of an extent |
//! | `handover`, `asked` | a lock goes to who asks for it, and who waits meanwhile |
//! | `fencing` | an owner that doesn't watch is fenced |
//! | `stopping`, `late`, `places` | stops, next lives, and what comes late |
//! | `expiring`, `sites` | steps of the store, and logs |
//! | `telling`, `quiescing` | what clients tell each other, and what holds changes back |
//! | `nothing`, `slots` | events of which nothing comes |
//! | `clients` | what a world tells of a client |
//! | `examples` | the examples of front pages |

mod asked;
mod begins;
mod clients;
mod drive;
mod examples;
mod expiring;
mod fencing;
mod fills;
mod handover;
mod late;
mod mail;
mod map_texts;
mod maps;
mod nothing;
mod numbers;
mod others;
mod places;
mod quiescing;
mod rows;
mod schedule;
mod script;
mod sites;
mod slots;
mod snapshots;
mod stopping;
mod tables;
mod telling;
mod texts;
mod told;
mod waits;
mod writes;
