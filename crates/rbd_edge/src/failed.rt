ghost use Rattle.std.specs.Prelude.{Some};
ghost use Rattle.rbd_edge.specs.Texts.{failed_text};

use std::error::Error;
use std::fmt;

/// A read or a write failed outside of the program, and was not done. The device has counted it.
#[derive(Clone, Copy, Debug, PartialEq, Eq)]
pub struct Failed;

impl fmt::Display for Failed {
    ghost output = { λ _. Some failed_text };

    fn fmt<W: fmt::Write>(&self, f: &mut fmt::Formatter<W>) -> fmt::Result {
        f.write_str("a read or a write failed")
    }
}

impl Error for Failed {}
