//! What the tests of machines, sessions and clients share, so that they are tables of rows alone.
//! What reads rows answers by values, as the first row that isn't so, and the tests fail by them.
//!
//! | module | what it has |
//! |---|---|
//! | `headers` | a blank header, and the words that build on it |
//! | `maps` | the states of an object map, a digit an object |
//! | `answers` | what an operation is answered, by words |
//! | `looks` | what it is answered by words on an image, and not on the operation |
//! | `giving` | whether an operation can give an answer, found out when the test runs |
//! | `commands` | commands by words, and the names in them |
//! | `words` | operations, and what else a machine wants, in words |
//! | `replies` | replies in words |
//! | `drive` | what takes a machine from step to step, whoever answers it |
//! | `alone` | a part of a request as a machine |
//! | `rows` | rows of a text that answer a machine |
//! | `scene` | what answers a machine by looks, and writes down what it wants |
//! | `slots` | what has requests in slots, a session or a client |
//! | `cases` | rows of a text for slots |
//! | `player` | a text of cases, each of rows one after another, whoever plays them |
//! | `clone_piece` | a piece of a made-up write of a clone, which may begin again |
//! | `clone_change` | that write, alone |
//! | `clone_request` | the requests of a session whose writes are such ones |
//! | `errors` | why a row, or a text of rows, isn't so |
//! | `text` | words and numbers of a row |
mod alone;
mod answers;
mod cases;
mod clone_change;
mod clone_piece;
mod clone_request;
mod commands;
mod drive;
mod errors;
mod giving;
mod headers;
mod looks;
mod maps;
mod player;
mod replies;
mod rows;
mod scene;
mod slots;
mod text;
mod words;

pub use alone::Alone;
pub use clone_change::clone_write;
pub use clone_request::CloneRequest;
pub use commands::{asked, fill_length, hello, name, payload, read_length, served};
pub use drive::{Answers, Played, play};
pub use errors::{CaseError, RowError};
pub use giving::can_give;
pub use headers::header;
pub use player::{Player, cases_hold, none_holds};
pub use rows::plays;
pub use scene::Scene;
pub use slots::Slots;
pub use text::{behind, bytes, fails, has, holds, number};
pub use words::{IMAGE, LATER, ME, OTHER, OWNER, client_into, operation_into, wait_into};
