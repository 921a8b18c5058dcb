//! A piece that begins again, beside other requests of its line: it keeps its turn until it has
//! ended, and then the turn is passed on.
//!
//! The image 7 is a clone of 8,192 bytes in objects of 4,096. It takes the first 4,098 bytes from
//! the image 3, at its snapshot 1. A `write-0-1` puts `he` into its object 0 and `llo` into its
//! object 1, a `write-0` puts `hello` into its object 0, and these begin a piece again where that
//! snapshot isn't there. A `fill-1` changes the object 1, and knows nothing of parents.
use super::drive::TestedBy;
use crate::fixtures::{CloneRequest, cases_hold};
use std::test::Fail;

/// A session whose writes are those of clones.
type Tested = TestedBy<CloneRequest>;

const CASES: &str = "a piece that begins again twice keeps its turn and passes it on behind its end
1 takes write-0-1
2 takes fill-1
1,2 dir-find id-7, header-get clone, header-get clone
2 waits
1 map-set 0 1 => done, data-write 0 must at 4094 2 he => done
2 waits
1 map-set 1 1 => done
2 waits
1 data-write 1 must at 0 3 llo => none
2 waits
1 header-get elsewhere => none
2 waits
1 map-set 1 1 => done
2 waits
1 data-write 1 must at 0 3 llo => none
2 waits
1 header-get elsewhere => header size 4098
2 waits
1 map-set 1 1 => done
2 waits
1 data-write 1 must at 0 3 llo => none
2 waits
1 header-get elsewhere => header size 4098 snap 4098
2 waits
1 data-read elsewhere 1 snap 1 at 0 2 => bytes ab
2 waits
1 data-copy-up 1 ab => done
2 waits
1 data-write 1 at 0 3 llo => done => done
2 map-set 1 1 => done, data-write done done
rests 7
free 1

the turn of a first piece that began again twice goes with that piece
1 takes write-0-1
2 takes write-0
1,2 dir-find id-7, header-get clone, header-get clone
2 waits
1 map-set 0 1 => done, data-write 0 must at 4094 2 he => none, header-get elsewhere => none
2 waits
1 map-set 0 1 => done, data-write 0 must at 4094 2 he => none, header-get elsewhere => none
2 waits
1 map-set 0 1 => done
2 waits
1 data-write 0 must at 4094 2 he => done
2 map-set 0 1 => done
1 map-set 1 1 => done
2 data-write 0 must at 0 5 hello => done => done
1 data-write 1 must at 0 3 llo => done => done
rests 7
free 1

two requests begin the piece of one object again twice and each in its turn
1,2 takes write-0, dir-find id-7, header-get clone, header-get clone
1 map-set 0 1 => done, data-write 0 must at 0 5 hello => none, header-get elsewhere => none
2 waits
1 map-set 0 1 => done, data-write 0 must at 0 5 hello => none, header-get elsewhere => none
2 waits
1 map-set 0 1 => done, data-write 0 must at 0 5 hello => done => done
2 map-set 0 1 => done, data-write 0 must at 0 5 hello => none, header-get elsewhere => none
2 map-set 0 1 => done, data-write 0 must at 0 5 hello => none, header-get elsewhere => none
2 map-set 0 1 => done, data-write 0 must at 0 5 hello => done => done
rests 7
free 1

who waits gets no turn where others begin again at other objects too
1 takes write-0-1
2 takes write-0
3 takes fill-1
1,2,3 dir-find id-7, header-get clone, header-get clone
1 map-set 0 1 => done, data-write 0 must at 4094 2 he => done
2 map-set 0 1 => done, data-write 0 must at 0 5 hello => none, header-get elsewhere => none
1 map-set 1 1 => done, data-write 1 must at 0 3 llo => none, header-get elsewhere => none
3 waits
2 map-set 0 1 => done, data-write 0 must at 0 5 hello => none, header-get elsewhere => none
1 map-set 1 1 => done, data-write 1 must at 0 3 llo => none, header-get elsewhere => none
3 waits
2 map-set 0 1 => done, data-write 0 must at 0 5 hello => done => done
3 waits
1 map-set 1 1 => done, data-write 1 must at 0 3 llo => done => done
3 map-set 1 1 => done, data-write done done
rests 7
free 1

a piece that begins again holds nobody back at another object
1 takes write-0
2 takes fill-1
1,2 dir-find id-7, header-get clone, header-get clone
1 map-set 0 1 => done, data-write 0 must at 0 5 hello => none, header-get elsewhere => none
2 map-set 1 1 => done
1 map-set 0 1 => done, data-write 0 must at 0 5 hello => none, header-get elsewhere => none
2 data-write done done
1 map-set 0 1 => done, data-write 0 must at 0 5 hello => done => done
rests 7
free 1

a snapshot waits at its look under the lock for a piece that begins again
1 takes write-0
2 takes snap-create
1,2 dir-find id-7, header-get clone
1 header-get clone
2 waits
1 map-set 0 1 => done, data-write 0 must at 0 5 hello => none, header-get elsewhere => none
2 waits
1 map-set 0 1 => done, data-write 0 must at 0 5 hello => none, header-get elsewhere => none
2 waits
1 map-set 0 1 => done, data-write 0 must at 0 5 hello => done => done
2 header-get clone, map-get bits, map-put done, header-snap-add snap done
free 1

a look at the parent is no look under the lock and the image moves until the piece has ended
1 takes write-0, dir-find id-7, header-get clone, looks 7, header-get clone, looks none
moves 7
1 map-set done, data-write none, looks none, header-get none, looks none
moves 7
1 map-set done, data-write none, looks none, header-get header, looks none
moves 7
1 map-set done, data-write none, looks none, header-get parent, looks none
moves 7
1 data-read none, data-copy-up exists, data-write done done
rests 7

a turn goes with the end of a request whose piece began again
1 takes write-0-1
2 takes fill-1
1,2 dir-find id-7, header-get clone, header-get clone
1 map-set done, data-write done, map-set done, data-write none, header-get none
2 waits
1 map-set done, data-write none, header-get fenced Fenced
2 map-set done, data-write done done
rests 7
free 1

a turn goes with a request that is given up while its piece begins again
1 takes write-0-1
2 takes fill-1
1,2 dir-find id-7, header-get clone, header-get clone
1 map-set done, data-write done, map-set done, data-write none, header-get none
2 waits
1 gives up
2 map-set done, data-write done done
rests 7
free 1";

#[test]
fn a_piece_keeps_its_turn_while_it_begins_again(rt: HostRuntime) -> Result<(), Fail> {
    cases_hold::<Tested>(rt.alloc(), "", CASES)?;
    Ok(())
}
