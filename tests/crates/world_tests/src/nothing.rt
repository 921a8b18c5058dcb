//! Events of which nothing comes, and a refusal before any operation.
use super::rows::row_holds;

/// No world has the clients c5 and c0. c1 has nothing in any slot, and no slot has the number 65.
/// No image is there, and no notice. Nobody was stopped.
const NOT_THERE: &str = "goes 24 5.1 5.1=none 0.1 5.0 1.1 1.1=none 1.64 1.65 1.65=none trim:1.0
deliver:1 deliver:0 expire:1.1 expire:5.1 stop:5 late:1.1 late:1.0 late:5.1 restart:1 restart:5
|came nothing nothing nothing nothing nothing nothing nothing nothing nothing nothing nothing \
nothing nothing nothing nothing nothing nothing nothing
|replies -
|history -
|a -
|b -
";

#[test]
fn nothing_comes_of_what_names_nothing_that_is_there(rt: HostRuntime) {
    row_holds(&rt, rt.alloc(), NOT_THERE);
}

/// Slot 0 of a client that runs is there, and waits: no lock is to be let go.
const NO_LOCK: &str = "goes 1.0 1.0=none 3 1.1>end 1.0 1.0=none
|came waits slot1 a1 a2 a3! waits
|replies 3 ok
";

#[test]
fn a_client_without_a_lock_waits_at_slot_0(rt: HostRuntime) {
    row_holds(&rt, rt.alloc(), NO_LOCK);
}

/// Line 3 is begun once, whether it has its reply or not.
const TWICE: &str = "goes 3 3 1.1 3 1.1 1.1 3 1.1 1.2
|came slot1 nothing a1 nothing a2 a3! nothing nothing nothing
|replies 3 ok
|history h 1 start 3 c1.0
h 2 effect 3 a1 name
h 3 look 3 a2
h 4 effect 3 a3 create
h 5 reply 3
|a o a1 c1.0 dir-add rbd_directory id
o a2 c1.0 map-resize rbd_object_map.1 done
o a3 c1.0 header-create rbd_header.1 done
|b -
";

#[test]
fn a_line_is_begun_once(rt: HostRuntime) {
    row_holds(&rt, rt.alloc(), TWICE);
}

/// An object of 4,095 bytes is outside the limits. The refusal takes no number, and the slot is
/// free then.
const OUTSIDE: &str = "goes 16 1.1=none 1.1 1.1 3 1.1=dir-add 1.1>end
|came slot1 a0! nothing slot1 a1 a2 a3!
|replies 16 error 22 BadShape;3 ok
|history h 1 start 16 c1.0
h 2 reply 16
h 3 start 3 c1.0
h 4 effect 3 a1 name
h 5 look 3 a2
h 6 effect 3 a3 create
h 7 reply 3
|a o a1 c1.0 dir-add rbd_directory id
o a2 c1.0 map-resize rbd_object_map.1 done
o a3 c1.0 header-create rbd_header.1 done
|b -
";

#[test]
fn a_create_outside_the_limits_has_no_operation(rt: HostRuntime) {
    row_holds(&rt, rt.alloc(), OUTSIDE);
}

/// The name is looked for, and that is the one operation.
const NO_IMAGE: &str = "goes 22 2.1=dir-find 2.1 2.1=none
|came slot1 a1!
|replies 22 error 2 NoImage
";

#[test]
fn a_look_at_no_image_is_refused_by_its_first_operation(rt: HostRuntime) {
    row_holds(&rt, rt.alloc(), NO_IMAGE);
}

/// Nothing comes of the polls of c5 and of slot 2, nor of line 24. The first trim finds no object,
/// no notice is delivered, and c2 wants nothing when it stops.
const ALL: &str = "goes 3 5.1 1.1*3 1.2 trim:1.0 24 17 1.1=none 2.1>end 5 1.1>end trim:1.1
deliver:1 expire:1.1 stop:2 late:2.1 restart:2
|events 3:c1 5.1 1.1 1.1 1.1 1.2 trim:a1.0 24:c5 17:c2 2.1 \
5:c1 1.1 1.1 1.1 1.1 1.1 1.1 1.1 1.1 1.1 trim:a1.1 \
deliver:1 expire:c1.a1 stop:c2 late:2.1 restart:c2
";

#[test]
fn the_calls_have_each_event_also_where_nothing_came(rt: HostRuntime) {
    row_holds(&rt, rt.alloc(), ALL);
}
