//! Each site has a log of its own, in which the store's steps are lines too.
use super::rows::row_holds;

/// c1 at site A and c3 at site B make an image each, side by side.
const BOTH: &str = "goes 3 19 3.1=dir-add 1.1 3.1 3.1 1.1 3.1 1.1
|came slot1 slot1 a1 b1 b2 a2 b3! a3!
|replies 19 ok;3 ok
|history h 1 start 3 c1.0
h 2 start 19 c3.0
h 3 effect 3 a1 name
h 4 effect 19 b1 name
h 5 look 19 b2
h 6 look 3 a2
h 7 effect 19 b3 create
h 8 reply 19
h 9 effect 3 a3 create
h 10 reply 3
|a o a1 c1.0 dir-add rbd_directory id
o a2 c1.0 map-resize rbd_object_map.1 done
o a3 c1.0 header-create rbd_header.1 done
|b o b1 c3.0 dir-add rbd_directory id
o b2 c3.0 map-resize rbd_object_map.1 done
o b3 c3.0 header-create rbd_header.1 done
";

#[test]
fn each_site_numbers_its_own_operations(rt: HostRuntime) {
    row_holds(&rt, rt.alloc(), BOTH);
}

/// The image 1 has the objects 0 and 1, and there is no image 2. Both trims take a number, and no
/// entry of the history.
const TRIMMED: &str = "goes 3 1.1>end 5 1.1>end trim:1.0 trim:1.1 trim:1.2 trim:2.0 17 2.1
|came slot1 a1 a2 a3! slot1 a4 a5 a6 a7 a8 a9 a10 a11 a12! stored stored nothing nothing slot1 \
a15!
|replies 3 ok;5 ok;17 ok disk
|history+5 h 17 start 17 c2.0
h 18 look 17 a15
h 19 reply 17
|a+5 o a13 store trim rbd_data.1.0000000000000000 done
o a14 store trim rbd_data.1.0000000000000001 done
o a15 c2.0 dir-list rbd_directory names
|b -
";

#[test]
fn a_trim_is_a_line_of_the_log_alone(rt: HostRuntime) {
    row_holds(&rt, rt.alloc(), TRIMMED);
}

/// The snapshot is removed, and what the objects kept for it is trimmed between the reads of line
/// 10. The image's own bytes stay.
const TRIMMED_BENEATH: &str = "\
goes 3 1.1>end 5 1.1>end 9 1.1>end 12 1.1>end 14 1.1>end 10 2.1*3 trim:1.0 trim:1.1 2.1>end
|came slot1 a1 a2 a3! slot1 a4 a5 a6 a7 a8 a9 a10 a11 a12! slot1 a13 a14 a15 a16 a17 a18! slot1 \
a19 a20 a21 a22 a23 a24 a25! slot1 a26 a27 a28 a29 a30! slot1 a31 a32 a33 stored stored a36 a37!
|replies 3 ok;5 ok;9 ok;12 ok;14 ok;10 ok 55667788
";

#[test]
fn a_trim_leaves_the_bytes_of_the_image(rt: HostRuntime) {
    row_holds(&rt, rt.alloc(), TRIMMED_BENEATH);
}
