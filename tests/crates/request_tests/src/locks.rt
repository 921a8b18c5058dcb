//! Tests of what takes and gives up an image's lock, through public calls: the way to a lock and
//! its release, and what a session counts of its locks (`rbd_lock`), and `close`, `quiesce`,
//! `resume` and `tell` (`rbd_session`).
//!
//! One site of the tests' own (`site`) answers, and writes down what it is asked. The driver of
//! `fixtures` takes each request (`asked`) from step to step, and the site looks whether its answers
//! can be given. The tests are tables of what is written down then, by subject; what a session
//! counts is told behind each step by its words (`steps`):
//!
//! | file | subject |
//! |---|---|
//! | `taking` | each way to a lock, what ends it, and whether its steps are marked as waiting |
//! | `releasing` | each release, and what a session counts as its own |
//! | `closing` | `close` |
//! | `quiescing` | `quiesce`, and `resume`, which ends it |
//! | `telling` | `tell` |
//! | `counting` | what is counted of three images behind each step of a course |
//! | `order` | in which order images that were asked for come |
//!
//! What a request has to do was worked out by hand from the diagrams.
mod asked;
mod closing;
mod counting;
mod order;
mod quiescing;
mod releasing;
mod site;
mod steps;
mod taking;
mod telling;
