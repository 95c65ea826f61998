//! Scripts that give a volume another name.
use super::{SET_A, answers, fresh_store, image_now, sector, writes};
use crate::testing::same;

// The old name is looked at first, then whether the new one is good, and then whether a volume has it. Logical sector 1
// is row 1 of member 0, which is sector 9 there. It begins with the record: the length of the name, and the name.
#[test]
fn rename_script(rt: HostRuntime) {
    let mut store = fresh_store(&rt, SET_A);
    answers(
        &rt,
        &mut store,
        b"create a 10\nwrite a 0 ab*512\nrename a b\nread b 0 1\nread a 0 1\n\
rename b b\nrename a B\nrename b B\nlist\n",
        b"ok\nok\nok\nab*512\nrefused 6 NoVolume\n\
refused 3 Exists\nrefused 6 NoVolume\nrefused 1 BadName\nb 10\n",
    );
    let records = sector(&rt, &image_now(&rt, &store), 0, 9);
    same(&rt, &records[..3], &[0x01, 0x62, 0x00]);
}

// A volume is found by its whole name. Two of them exchange their names by a third one, and the list is in the order of
// the new ones. What has another name is extended and removed by it.
#[test]
fn volumes_that_exchange_their_names(rt: HostRuntime) {
    writes(
        &rt,
        b"create a 1\ncreate ab 2\nwrite a 0 11*512\nwrite ab 1 22*512\n\
rename b c\nrename abc c\nrename a ab\nrename a c\nrename ab a\nrename c ab\n\
list\nread a 0 2\nread ab 0 1\n\
rename ab b\nextend b 64\nread b 0 2\nremove a\nlist\n",
        b"ok\nok\nok\nok\n\
refused 6 NoVolume\nrefused 6 NoVolume\nrefused 3 Exists\nok\nok\nok\n\
a 2\nab 1\n00*512\n22*512\n11*512\n\
ok\nok\n11*512\n00*512\nok\nb 65\n",
    );
}
