//! Tests of the flat-copy machine, of devices and of the site, with a file for each crate.
mod bench;
mod edge;
mod fence;
mod flat;
mod maps;
mod site;
