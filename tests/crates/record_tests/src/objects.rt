//! Tests of striping, of objects and of frames, with a file for each crate.
mod frame;
mod layout;
mod object;
mod places;
mod striped;
