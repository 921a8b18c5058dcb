//! Tests of the requests that zero, resize, roll back, remove or rename, and of `du`, through their
//! public calls: tables of images against all that a request wants, in order, and its reply.
//!
//! The tables were worked out by hand, from the rules in words. A row has a command, what the two
//! looks at the image tell, what the request wants, and its reply; `fixtures` reads a look and spells a
//! want.
mod commands;
mod removal;
mod rows;
mod tables;
