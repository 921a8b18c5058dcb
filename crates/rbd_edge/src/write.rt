ghost use Rattle.std.specs.Prelude.{◌≡◌, ◌+◌, ◌-◌, ◌^◌, ◌<◌, OnOk, OnErr};
ghost use Rattle.rbd_edge.specs.Sink.{held_with, GainsFront};

use crate::failed::Failed;
use crate::sink::Sink;

/// Gives a whole text to a sink, in as many calls as that takes, and none for an empty text. It
/// takes no memory. It ends at the first fault, and the sink then holds some first bytes of the
/// text, never all.
pub fn write_all<K: Sink>(sink: &mut K, text: &[u8]) -> Result<(), Failed>
    requires { K.faults sink.old < 2 ^ 64 - 1 }

    ensures gained { OnOk result (K.held sink.new ≡ held_with text.now (K.held sink.old)) }
    ensures quiet { OnOk result (K.faults sink.new ≡ K.faults sink.old) }

    // When it fails, and what that leaves.
    ensures failed { OnErr result (K.faults sink.new ≡ K.faults sink.old + 1) }
    ensures front { OnErr result (GainsFront text.now (K.held sink.old) (K.held sink.new)) }
{
    let mut given = 0;
    while given < text.len() {
        given += sink.give(&text[given..])?;
    }
    Ok(())
}
