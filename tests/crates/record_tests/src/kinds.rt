//! Tests of the words of all (`rbd_kinds`), with a file for each kind of value.
mod bytes;
mod names;
mod sharing;
mod values;
mod words;
