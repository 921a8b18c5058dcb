//! What is done where its object is there, and only then.
ghost use Rattle.std.specs.Prelude.{◌≡◌};
ghost use Rattle.rbd_site.specs.Found.{done_where};

use rbd_kinds::Answer;

/// The answer to what is done where its object is there.
pub fn done_where(there: bool) -> Answer
    ensures { result ≡ done_where there }
{
    if there { Answer::Done } else { Answer::Absent }
}
