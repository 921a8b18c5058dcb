//! What lines 3 and 5 add to the history and to the log of site A, where each is played alone and
//! they come first: `3 1.1>end 5 1.1>end`.

const CREATED: &str = "h 1 start 3 c1.0
h 2 effect 3 a1 name
h 3 look 3 a2
h 4 effect 3 a3 create
h 5 reply 3
";

const WRITTEN: &str = "h 1 start 3 c1.0
h 2 effect 3 a1 name
h 3 look 3 a2
h 4 effect 3 a3 create
h 5 reply 3
h 6 start 5 c1.0
h 7 look 5 a4
h 8 look 5 a5
h 9 look 5 a6
h 10 look 5 a7
h 11 look 5 a8
h 12 look 5 a9
h 13 effect 5 a10 piece
h 14 look 5 a11
h 15 effect 5 a12 piece
h 16 reply 5
";

const WRITTEN_LOG: &str = "o a1 c1.0 dir-add rbd_directory id
o a2 c1.0 map-resize rbd_object_map.1 done
o a3 c1.0 header-create rbd_header.1 done
o a4 c1.0 dir-find rbd_directory id
o a5 c1.0 header-get rbd_header.1 header
o a6 c1.0 watch rbd_header.1 done
o a7 c1.0 lock-take rbd_header.1 done
o a8 c1.0 header-get rbd_header.1 header
o a9 c1.0 map-set rbd_object_map.1 done
o a10 c1.0 data-write rbd_data.1.0000000000000000 done
o a11 c1.0 map-set rbd_object_map.1 done
o a12 c1.0 data-write rbd_data.1.0000000000000001 done
";

/// How a history or a log begins behind line 3, or behind line 5.
pub fn begin_of(key: &str) -> &'static str {
    match key {
        "history+3" => CREATED,
        "history+5" => WRITTEN,
        "a+5" => WRITTEN_LOG,
        _ => "",
    }
}
