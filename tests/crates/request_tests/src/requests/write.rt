//! A write and a fill, to their end and to their refusals. The image has 8,192 bytes in objects of
//! 4,096, so the bytes 4,094 to 4,098 lie in the objects 0 (two of them) and 1 (three).
use super::commands::cases_hold;

const CASES: &str = "a write past the end is refused
write 4094 hello
dir-find disk => id-7
join
header-get => header size 4098 generation 1
BadRange

a secondary is not written
write 4094 hello
dir-find disk => id-7
join
header-get => header size 8192 generation 1
hold
header-get => header size 8192 generation 1 secondary
NonPrimary

a write goes object by object
write 4094 hello
dir-find disk => id-7
join
header-get => header size 8192 generation 1
hold
header-get => header size 8192 generation 1
note
turn 0
map-set 0 1 => done
data-write 0 at 4094 2 he of 4094 => done
turn 1
map-set 1 1 => done
data-write 1 at 0 3 llo of 4096 => done
applied
done

a fill of three bytes is past the end of two
fill 0 3
dir-find disk => id-7
join
header-get => header size 2 generation 1
BadRange";

#[test]
fn writes_want_these_one_after_another(rt: HostRuntime) {
    cases_hold(&rt, rt.alloc(), CASES);
}
