//! Object maps over a life, and the objects of an extent.
use super::rows::named_row_holds;
use super::tables::table_holds;

// ---- over a life

/// Of the objects 0, 1 and 2 the first and the last are written before the snapshot `old`, the one
/// in the middle behind it.
const LIFE: &str = "client c1 a
c1 create disk 12288 object 4096
c1 write disk 0 11
c1 write disk 8192 22
c1 snap create disk@old
c1 write disk 4096 33
c1 snap create disk@new
c1 snap rm disk@old
c1 snap create disk@old";

/// So the map of `old`, which is the snapshot 1, says 1, 0 and 1, and from then on the head's,
/// which is told for `new`, says 1, 1 and 1. The map of `old` goes with it, and no id comes again.
const LIFE_MAPS: &str = "goes 2 1.1>end 3 1.1>end 4 1.1>end 5 1.1>end 6 1.1>end 7 1.1>end 8 1.1>end
9 1.1>end
|maps resize 3 done;set 0:1 done;set 2:1 done;get bits 1010;put 1 1010 done;\
set 1:1 done;get bits 1110;put 2 1110 done;remove 1 done;get bits 1110;put 3 1110 done
";

#[test]
fn a_snapshot_has_the_map_of_the_head_as_it_was(rt: HostRuntime) {
    named_row_holds(&rt, rt.alloc(), LIFE, LIFE_MAPS, LIFE_MAPS);
}

// ---- extents

/// The snapshot asks for the states of the head's map.
const FILL: &str = "client c1 a
c1 create disk $0$ $1$
c1 fill disk $2$ $3$ 5a
c1 snap create disk@now
c1 read disk 0 $0$";

const FILLED: &str = "goes 2 1.1>end 3 1.1>end 4 1.1>end 5 1.1>end filled:$0$.$2$.$3$
|bits $4$
";

/// An image's size and layout, the place and the length of a fill, and the states of the head's map
/// behind it. Which objects the bytes lie in was worked out by hand:
///
/// - Objects of 4,096 bytes, one in a stripe: the byte x lies in the object x / 4096.
/// - Two objects in a stripe of units of 512: the bytes 0 to 8191 lie in the objects 0 and 1 by
///   turns, 512 at a time, and the next 8,192 in the objects 2 and 3.
/// - Three, and units of 1,024: the bytes 0 to 12287 lie in the objects 0, 1 and 2 by turns, 1,024
///   at a time, and those up to 19999 in the objects 3, 4 and 5, the last 544 in the object 4.
const EXTENTS: &str = "12289|object 4096|4095|2|1100
12289|object 4096|4096|8192|0110
12289|object 4096|12288|1|0001
12289|object 4096|0|12289|1111
16384|object 4096 unit 512 count 2|0|512|1000
16384|object 4096 unit 512 count 2|512|512|0100
16384|object 4096 unit 512 count 2|511|2|1100
16384|object 4096 unit 512 count 2|7680|512|0100
16384|object 4096 unit 512 count 2|8191|2|0110
16384|object 4096 unit 512 count 2|8192|513|0011
16384|object 4096 unit 512 count 2|15872|512|0001
16384|object 4096 unit 512 count 2|7679|514|1110
20000|object 4096 unit 1024 count 3|3072|1|10000000
20000|object 4096 unit 1024 count 3|2048|1025|10100000
20000|object 4096 unit 1024 count 3|12287|2|00110000
20000|object 4096 unit 1024 count 3|19456|544|00001000
20000|object 4096 unit 1024 count 3|17408|1024|00000100
20000|object 4096 unit 1024 count 3|18431|1026|00011100
20000|object 4096 unit 1024 count 3|0|20000|11111100";

#[test]
fn the_map_has_the_objects_of_an_extent(rt: HostRuntime) {
    table_holds(&rt, rt.alloc(), FILL, FILLED, EXTENTS);
}
