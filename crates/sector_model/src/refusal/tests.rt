use super::Refusal;
use crate::testing::same;

const NUMBERS: [(Refusal, u8); 22] = [
    (Refusal::BadName, 1),
    (Refusal::BadSize, 2),
    (Refusal::Exists, 3),
    (Refusal::TooManyVolumes, 4),
    (Refusal::NoSpace, 5),
    (Refusal::NoVolume, 6),
    (Refusal::BadCount, 7),
    (Refusal::OutOfRange, 8),
    (Refusal::WouldLose, 9),
    (Refusal::NotMissing, 10),
    (Refusal::NotUsable, 11),
    (Refusal::NothingToRebuild, 12),
    (Refusal::Incomplete, 13),
    (Refusal::Memory, 14),
    (Refusal::TwoLost, 15),
    (Refusal::Worn, 16),
    (Refusal::NoSet, 17),
    (Refusal::BadTable, 18),
    (Refusal::BadGeometry, 19),
    (Refusal::BadLine, 20),
    (Refusal::ReadFault, 21),
    (Refusal::WriteFault, 22),
];

#[test]
fn each_refusal_has_its_number_its_name_and_a_text(rt: HostRuntime) {
    for k in 0..NUMBERS.len() {
        let (refusal, number) = NUMBERS[k];
        same(&rt, refusal.number(), number);
        let name = format!(in rt.alloc(); "{refusal:?}").expect(&rt, "memory");
        same(&rt, refusal.name(), name.as_str());
        let text = format!(in rt.alloc(); "{refusal}").expect(&rt, "memory");
        same(&rt, refusal.text(), text.as_str());
    }
}
