//! A read, to its end, also behind passes that it made in vain, and to its refusals. Most images
//! have 8,192 bytes in objects of 4,096, so the bytes 4,094 to 4,098 lie in the objects 0 (two of
//! them) and 1 (three).
use super::commands::cases_hold;

const CASES: &str = "a read of an unlisted snapshot is refused
read 4094 5 first
dir-find disk => id-7
header-get => header size 8192 generation 1
NoSnap

a read past the end is refused
read 4094 5
dir-find disk => id-7
header-get => header size 4098 generation 1
BadRange

a read shows zeros where no object is
read 4094 5
dir-find disk => id-7
header-get => header size 8192 generation 1
data-read 0 at 4094 2 of 4094 => bytes he
data-read 1 at 0 3 of 4096 => none
header-get => header size 8192 generation 1
bytes he...

a read begins again twice: the header changed in its first pass, and was away behind its second
read 4094 5
dir-find disk => id-7
header-get => header size 8192 generation 1
data-read 0 at 4094 2 of 4094 => bytes he
data-read 1 at 0 3 of 4096 => none
header-get => header size 8192 generation 2
dir-find disk => id-7
header-get => header size 8192 generation 2
data-read 0 at 4094 2 of 4094 => bytes he
data-read 1 at 0 3 of 4096 => none
header-get => none
dir-find disk => id-7
header-get => header size 8192 generation 3
data-read 0 at 4094 2 of 4094 => bytes he
data-read 1 at 0 3 of 4096 => none
header-get => header size 8192 generation 3
bytes he...";

#[test]
fn reads_want_these_one_after_another(rt: HostRuntime) {
    cases_hold(&rt, rt.alloc(), CASES);
}

/// A read shows the bytes of its objects in the order of the image. Of stripe units of 512 bytes,
/// two objects a set, the object 0 has the bytes 0 to 511 and 1,024 to 1,535 of the image, the
/// object 1 the others. Of units of 4,096 bytes the bytes 4,000 to 4,095 are the last of a unit in
/// the object 0, and 4,096 to 4,195 the first of one in the object 1.
const IN_ORDER: &str = "units are put in the order of the image
read 0 2048
dir-find disk => id-7
header-get => header size 8192 unit 512 count 2
data-read 0 at 0 512 at 512 512 of 0 of 1024 => halves 512 12
data-read 1 at 0 512 at 512 512 of 512 of 1536 => halves 512 34
header-get => header size 8192 unit 512 count 2
bytes 512*1 512*3 512*2 512*4

two objects are put behind one another
read 4000 196
dir-find disk => id-7
header-get => header size 8192 object 8192 count 2
data-read 0 at 4000 96 of 4000 => halves 48 12
data-read 1 at 0 100 of 4096 => halves 50 34
header-get => header size 8192 object 8192 count 2
bytes 48*1 48*2 50*3 50*4";

#[test]
fn bytes_are_put_in_the_order_of_the_image(rt: HostRuntime) {
    cases_hold(&rt, rt.alloc(), IN_ORDER);
}
