//! The commands of these tests. The image `disk` has the objects 0 and 1, of which the second
//! begins at the byte 4,096.
use rbd_script::{Script, read};
use std::alloc::Global;
use std::process::Abort;

/// By the numbers of its lines, from 1. The client c5 is in no world.
pub const SCRIPT: &str = "client c1 a
client c2 a
c1 create disk 8192 object 4096
# changes and looks at the bytes 4094 to 4097
c1 write disk 4094 11223344
c2 read disk 4094 4
c1 write disk 4095 aabb
# the snapshots, and what is read of them
c1 snap create disk@old
c2 read disk 4094 4
c2 read disk@old 4094 4
c1 write disk 4094 55667788
c1 snap create disk@new
c1 snap rm disk@old
# others
c1 create odd 8192 object 4095
c2 ls
client c3 b
c3 create disk 4096 object 4096
client c4 a
c4 ls
c2 info gone
client c5 a
c5 ls
# changes by others, and what clients tell each other: hi, yo, me
c2 write disk 4095 cccc
c4 write disk 4097 ee
c4 read disk 4094 4
c1 quiesce disk
c1 resume disk
c1 tell disk 6869
c2 tell disk 796f
c1 read disk 4094 4
c1 write disk 4096 dd
c4 tell disk 6d65
c3 tell disk 6869";

/// What a text says.
pub fn script(rt: &impl Abort, alloc: Global, text: &[u8]) -> Script {
    match read(alloc, text, false) {
        Ok(script) => script,
        Err(_) => panic!(rt; "the text is no script"),
    }
}
