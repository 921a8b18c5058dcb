//! Requests of names, headers and snapshots, on their way to their end and to a refusal.
use super::commands::cases_hold;

const CASES: &str = "create draws an id and makes a map and a header
create 4096
dir-add disk => id-7
map-resize 1 => done
header-create 4096 => done
done

a held name is refused
create 4096
dir-add disk => exists
ImageExists

a shape outside the limits is refused: objects of 4,097 bytes, which is no power of two
create 4096 4097
BadShape

ls shows the names
ls
dir-list => names
names 0

info finds an image and shows its header
info
dir-find disk => id-7
header-get => header size 4096
info 4096

info of no image is refused
info
dir-find disk => none
NoImage

snap create takes a snapshot
snap-create first
dir-find disk => id-7
join alone
header-get => header size 4096
hold
header-get => header size 4096
note
map-get => bits 1
map-put snap 1 1000 => done
header-snap-add first => snap 1
applied
done

snap rm of an unlisted name is refused
snap-rm first
dir-find disk => id-7
join alone
header-get => header size 4096
NoSnap";

#[test]
fn requests_want_these_one_after_another(rt: HostRuntime) {
    cases_hold(&rt, rt.alloc(), CASES);
}
