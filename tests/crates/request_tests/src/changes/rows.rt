//! Tables of requests: `COMMAND|FIRST LOOK|LOOK UNDER THE LOCK|WANTS|REPLY`. Where the look under
//! the lock is empty it is as the first.

/// The way of a change that goes beside others to its look under the lock.
pub const BESIDE: &str = "dir-find disk, join discard, header-get, hold, header-get, ";

/// That of a change that is alone.
pub const ALONE: &str = "dir-find disk, join alone, header-get, hold, header-get, ";

/// That of a removal.
pub const REMOVING: &str = "dir-find disk, join alone, header-get, watchers-get, \
    hold, header-get, watchers-get, ";

/// Discards, behind the way: parts of an object, all that it has, several objects, and two
/// stripings. Inside an overlap an object is emptied and doesn't go. The look under the lock
/// decides.
pub const DISCARDS: &str = "\
discard 1 4095|size 12288||note, turn 0, data-zero 0 at 1 4095, applied|done
discard 4096 4096|size 12288||note, turn 1, map-set 1 2, data-remove 1, map-set 1 0, applied|done
discard 8192 1808|size 10000||note, turn 2, map-set 2 2, data-remove 2, map-set 2 0, applied|done
discard 8192 1807|size 10000||note, turn 2, data-zero 2 at 0 1807, applied|done
discard 4000 8192|size 16384||note, turn 0, data-zero 0 at 4000 96, turn 1, map-set 1 2, \
    data-remove 1, map-set 1 0, turn 2, data-zero 2 at 0 4000, applied|done
discard 4095 2|size 16384|size 4097|note, turn 0, data-zero 0 at 4095 1, turn 1, map-set 1 2, \
    data-remove 1, map-set 1 0, applied|done
discard 0 4096|size 8192 snap 8192 primary||note, turn 0, map-set 0 2, data-remove 0 for 1, \
    map-set 0 0, applied|done
discard 1 1|size 8192 snap 8192||note, turn 0, data-zero 0 for 1 at 1 1, applied|done
discard 0 4097|size 8192 parent 5000||note, turn 0, map-set 0 1, data-empty 0, turn 1, \
    map-set 1 1, data-zero 1 must at 0 1, applied|done
discard 4000 8388|size 32768 object 8192 count 2||note, turn 0, \
    data-zero 0 at 4000 96 at 4096 4096, turn 1, data-zero 1 at 0 4096 at 4096 100, applied|done
discard 4096 4096|size 12288 object 8192 count 2||note, turn 1, map-set 1 2, data-remove 1, \
    map-set 1 0, applied|done
discard 256 1024|size 8192 unit 512 count 2||note, turn 0, data-zero 0 at 256 256 at 512 256, \
    turn 1, data-zero 1 at 0 512, applied|done
discard 0 4096|size 8192 none map-set||note, turn 0, map-set 0 2|NoImage";

/// Resizes, behind the way: an image grows, stays as long, shrinks within an object, and over
/// objects of which some are in state 0. The largest sizes have 2^20 objects.
pub const RESIZES: &str = "\
resize 12289|size 8192||note, map-resize 4, header-set-size 12289, applied|done
resize 8192|size 8192||note, map-resize 2, header-set-size 8192, applied|done
resize 8192|size 4096|size 8192 journal primary|note, map-resize 2, header-set-size 8192, \
    applied|done
resize 4096|size 4096|size 8192 states 11|note, map-get, map-set 1 2, data-remove 1, map-set 1 0, \
    header-set-size 4096, applied|done
resize 4097|size 8192 states 11||note, map-get, data-zero 1 at 1 4095, header-set-size 4097, \
    applied|done
resize 6000|size 20480 states 11012||note, map-get, data-zero 1 at 1904 2192, map-set 3 2, \
    data-remove 3, map-set 3 0, map-set 4 2, data-remove 4, map-set 4 0, header-set-size 6000, \
    applied|done
resize 6000|size 12288 parent 5000 states 000||note, map-get, map-set 1 1, \
    data-zero 1 must at 1904 2192, header-set-size 6000, applied|done
resize 0|size 8192 states 00||note, map-get, header-set-size 0, applied|done
resize 4096|size 12288 snap 12288 states 101||note, map-get, map-set 2 2, data-remove 2 for 1, \
    map-set 2 0, header-set-size 4096, applied|done
resize 4294967296|size 0||note, map-resize 1048576, header-set-size 4294967296, applied|done
resize 8589930496|size 0 object 8192 count 3||note, map-resize 1048576, \
    header-set-size 8589930496, applied|done
resize 0|size 4096 states 1 none map-get||note, map-get|NoImage
resize 0|size 0 none header-set-size||note, map-resize 0, header-set-size 0|NoImage";

/// Rollbacks, behind the way: an image that grew since the snapshot, and one that shrank. Objects
/// that weren't there, or had only zeros, go; bytes are cut behind the last that isn't zero.
pub const ROLLBACKS: &str = "\
rollback one|size 12288 snap 4096 states 112 held ab||note, map-get, map-set 1 2, \
    data-remove 1 for 1, map-set 1 0, map-set 2 2, data-remove 2 for 1, map-set 2 0, \
    header-set-size 4096, data-read 0 snap 1 at 0 4096, map-set 0 1, data-write-full 0 for 1 ab, \
    applied|done
rollback one|size 4096 snap 10000 held ab,-,.c.||note, map-resize 3, header-set-size 10000, \
    data-read 0 snap 1 at 0 4096, map-set 0 1, data-write-full 0 for 1 ab, \
    data-read 1 snap 1 at 0 4096, map-set 1 2, data-remove 1 for 1, map-set 1 0, \
    data-read 2 snap 1 at 0 1808, map-set 2 1, data-write-full 2 for 1 .c, applied|done
rollback one|size 4096 snap 4096 held ...||note, map-resize 1, header-set-size 4096, \
    data-read 0 snap 1 at 0 4096, map-set 0 2, data-remove 0 for 1, map-set 0 0, applied|done
rollback one|size 5000 snap 4100 states 11 held a,b||note, map-get, data-zero 1 for 1 at 4 900, \
    header-set-size 4100, data-read 0 snap 1 at 0 4096, map-set 0 1, data-write-full 0 for 1 a, \
    data-read 1 snap 1 at 0 4, map-set 1 1, data-write-full 1 for 1 b, applied|done
rollback one|size 4096 snap 0 states 1||note, map-get, map-set 0 2, data-remove 0 for 1, \
    map-set 0 0, header-set-size 0, applied|done
rollback one|size 4096 snap 4096|size 4096 snap 0 states 0|note, map-get, header-set-size 0, \
    applied|done
rollback one|size 3072 snap 3072 unit 512 count 2 held a,b||note, map-resize 2, \
    header-set-size 3072, data-read 0 snap 1 at 0 512 at 512 512 at 1024 512, map-set 0 1, \
    data-write-full 0 for 1 a, data-read 1 snap 1 at 0 512 at 512 512 at 1024 512, map-set 1 1, \
    data-write-full 1 for 1 b, applied|done
rollback one|size 4096 snap 4096 none header-set-size||note, map-resize 1, \
    header-set-size 4096|NoImage";

/// Removals, behind the way: objects in use and not, none, a parent and a journal. Where the
/// name or the link is gone, it is passed over.
pub const REMOVALS: &str = "\
rm|size 32768 states 10210002||map-get, dir-remove, header-remove, data-remove 0, data-remove 2, \
    data-remove 3, data-remove 7, map-remove|done
rm|size 8192 states 00||map-get, dir-remove, header-remove, map-remove|done
rm|size 0||map-get, dir-remove, header-remove, map-remove|done
rm|size 4096 watch 0.2,0.1 primary states 1||map-get, dir-remove, header-remove, data-remove 0, \
    map-remove|done
rm|size 4096|size 8192 parent 4096 journal states 01|map-get, dir-remove, header-remove, \
    child-remove 3 snap 1, data-remove 1, map-remove, journal-remove|done
rm|size 4096 parent 1 journal states 1 none dir-remove||map-get, dir-remove, header-remove, \
    child-remove 3 snap 1, data-remove 0, map-remove, journal-remove|done
rm|size 4096 parent 1 journal states 1 none child-remove||map-get, dir-remove, header-remove, \
    child-remove 3 snap 1, data-remove 0, map-remove, journal-remove|done
rm|size 4096 states 1 none map-get||map-get|NoImage
rm|size 4096 states 1 none header-remove||map-get, dir-remove, header-remove|NoImage
rm|size 4096 journal states 1 none map-remove||map-get, dir-remove, header-remove, data-remove 0, \
    map-remove|NoImage
rm|size 4096 journal states 1 none journal-remove||map-get, dir-remove, header-remove, \
    data-remove 0, map-remove, journal-remove|NoImage";

/// The part alone, also by headers that `rm` refuses: with a snapshot, or of a secondary. Where the
/// head has no parent, a snapshot's is unlinked. A snapshot's map may be gone.
pub const PARTS: &str = "\
removal|size 8192 snap 8192 states 01||map-get, dir-remove, header-remove, data-remove 1, \
    map-remove, map-remove snap 1|done
removal|size 8192 snap 8192 under 4096 journal states 00||map-get, dir-remove, header-remove, \
    child-remove 3 snap 1, map-remove, map-remove snap 1, journal-remove|done
removal|size 8192 parent 1 snap 8192 under 1||map-get, dir-remove, header-remove, \
    child-remove 3 snap 1, map-remove, map-remove snap 1|done
removal|size 0 snap 0 journal none map-remove-snap||map-get, dir-remove, header-remove, \
    map-remove, map-remove snap 1, journal-remove|done
removal|size 0 snap 0 none map-remove||map-get, dir-remove, header-remove, map-remove|NoImage
removal|size 4096 secondary states 1||map-get, dir-remove, header-remove, data-remove 0, \
    map-remove|done";

/// What is in use of an image: another state than 0 counts, of the objects of its size alone. The
/// map may have more objects, or fewer, and the size may be 0. Stripings count by their objects.
pub const IN_USE: &str = "\
du|size 12288 states 102||dir-find disk, header-get, map-get|2 of 3
du|size 12289 states 1020||dir-find disk, header-get, map-get|2 of 4
du|size 4096 states 11120211||dir-find disk, header-get, map-get|1 of 1
du|size 8192 states 00120211||dir-find disk, header-get, map-get|0 of 2
du|size 20480 states 11120211||dir-find disk, header-get, map-get|4 of 5
du|size 28672 states 11102021||dir-find disk, header-get, map-get|5 of 7
du|size 40960 states 1112||dir-find disk, header-get, map-get|4 of 10
du|size 0 states 11||dir-find disk, header-get, map-get|0 of 0
du|size 8192||dir-find disk, header-get, map-get|0 of 2
du|size 16384 object 8192 count 2 states 11||dir-find disk, header-get, map-get|2 of 2
du|size 20480 object 8192 count 2 states 1011||dir-find disk, header-get, map-get|2 of 3
du|size 4096 snap 8192 secondary states 11||dir-find disk, header-get, map-get|1 of 1";

/// Names that change, and those that don't.
pub const RENAMES: &str = "\
rename disk one|||dir-rename disk one|done
rename disk one|none dir-rename||dir-rename disk one|NoImage
rename disk one|exists||dir-rename disk one|ImageExists";

/// All that is wanted before a request is refused: at the first look, and under the lock.
pub const REFUSALS: &str = "\
discard 0 1|none dir-find||dir-find disk|NoImage
discard 0 1|gone||dir-find disk, join discard, header-get|NoImage
discard 0 1|size 4096 secondary||dir-find disk, join discard, header-get|NonPrimary
discard 0 0|size 4096 secondary||dir-find disk, join discard, header-get|NonPrimary
discard 0 0|size 4096||dir-find disk, join discard, header-get|BadRange
discard 0 4097|size 4096||dir-find disk, join discard, header-get|BadRange
discard 4096 1|size 4096||dir-find disk, join discard, header-get|BadRange
discard 9223372036854775807 9223372036854775807|size 4096||dir-find disk, join discard, header-get|\
    BadRange
discard 0 1|size 4096|gone|dir-find disk, join discard, header-get, hold, header-get|NoImage
discard 0 1|size 4096|size 4096 secondary|dir-find disk, join discard, header-get, hold, \
    header-get|NonPrimary
discard 0 4096|size 4096|size 4095|dir-find disk, join discard, header-get, hold, header-get|\
    BadRange
resize 0|none dir-find||dir-find disk|NoImage
resize 0|gone||dir-find disk, join alone, header-get|NoImage
resize 0|size 4096 secondary||dir-find disk, join alone, header-get|NonPrimary
resize 4294967297|size 0 secondary||dir-find disk, join alone, header-get|NonPrimary
resize 4294967297|size 0||dir-find disk, join alone, header-get|BadShape
resize 8589930497|size 0 object 8192 count 3||dir-find disk, join alone, header-get|BadShape
resize 9223372036854775807|size 0||dir-find disk, join alone, header-get|BadShape
resize 0|size 4096|gone|dir-find disk, join alone, header-get, hold, header-get|NoImage
resize 0|size 4096|size 4096 secondary|dir-find disk, join alone, header-get, hold, header-get|\
    NonPrimary
resize 4294967297|size 0 object 8192|size 0|dir-find disk, join alone, header-get, hold, \
    header-get|BadShape
rollback one|none dir-find||dir-find disk|NoImage
rollback one|gone||dir-find disk, join alone, header-get|NoImage
rollback one|size 4096 snap 4096 secondary||dir-find disk, join alone, header-get|NonPrimary
rollback one|size 4096 secondary||dir-find disk, join alone, header-get|NonPrimary
rollback one|size 4096||dir-find disk, join alone, header-get|NoSnap
rollback two|size 4096 snap 4096||dir-find disk, join alone, header-get|NoSnap
rollback one|size 4096 snap 4096|gone|dir-find disk, join alone, header-get, hold, header-get|\
    NoImage
rollback one|size 4096 snap 1|size 4096 snap 1 secondary|dir-find disk, join alone, header-get, \
    hold, header-get|NonPrimary
rollback one|size 4096 snap 1|size 4096|dir-find disk, join alone, header-get, hold, header-get|\
    NoSnap
du|none dir-find||dir-find disk|NoImage
du|gone||dir-find disk, header-get|NoImage
du|size 4096 none map-get||dir-find disk, header-get, map-get|NoImage
rm|none dir-find||dir-find disk|NoImage
rm|gone||dir-find disk, join alone, header-get|NoImage
rm|size 4096 secondary||dir-find disk, join alone, header-get|NonPrimary
rm|size 4096 snap 4096 secondary||dir-find disk, join alone, header-get|NonPrimary
rm|size 4096 snap 4096 watch 3.0||dir-find disk, join alone, header-get|HasSnaps
rm|size 4096 watch 3.0||dir-find disk, join alone, header-get, watchers-get|InUse
rm|size 4096 watch 0.2,0.1,3.0||dir-find disk, join alone, header-get, watchers-get|InUse
rm|size 4096 none watchers-get||dir-find disk, join alone, header-get, watchers-get|NoImage
rm|size 4096|gone|dir-find disk, join alone, header-get, watchers-get, hold, header-get|NoImage
rm|size 4096|size 4096 secondary|dir-find disk, join alone, header-get, watchers-get, hold, \
    header-get|NonPrimary
rm|size 4096|size 4096 snap 4096|dir-find disk, join alone, header-get, watchers-get, hold, \
    header-get|HasSnaps
rm|size 4096|size 4096 watch 0.2,1.2|dir-find disk, join alone, header-get, watchers-get, hold, \
    header-get, watchers-get|InUse
rm|size 4096|size 4096 none watchers-get|dir-find disk, join alone, header-get, watchers-get, \
    hold, header-get, watchers-get|NoImage";
