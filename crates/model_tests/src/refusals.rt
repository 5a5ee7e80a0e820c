use refusal::{Layer, Refusal};

const CASES: [(Refusal, u8, Layer, usize); 18] = [
    (Refusal::TextLine(1), 11, Layer::Text, 1),
    (Refusal::TextOrder(2), 12, Layer::Text, 2),
    (Refusal::TextValue(3), 13, Layer::Text, 3),
    (Refusal::TextRoom(4), 14, Layer::Text, 4),
    (Refusal::TextSum(5), 15, Layer::Text, 5),
    (Refusal::TableLength(2), 21, Layer::Table, 2),
    (Refusal::TableStarts(1), 22, Layer::Table, 1),
    (Refusal::TableMove(65535), 23, Layer::Table, 65535),
    (Refusal::TableSum(16383), 24, Layer::Table, 16383),
    (Refusal::LadderTries, 31, Layer::Ladder, 0),
    (Refusal::LadderChances(1), 32, Layer::Ladder, 1),
    (Refusal::VectorLength(2), 41, Layer::Vector, 2),
    (Refusal::VectorEntry(9), 42, Layer::Vector, 9),
    (Refusal::VectorInequality(8), 43, Layer::Vector, 8),
    (Refusal::LookAheadReach(7), 44, Layer::LookAhead, 7),
    (Refusal::RegisterChance, 45, Layer::Register, 0),
    (Refusal::PartMarks(4096), 46, Layer::Part, 4096),
    (Refusal::RegisterFull, 51, Layer::Register, 0),
];

#[test]
fn numbers_layers_and_places(rt: HostRuntime) {
    for (refusal, number, layer, place) in CASES {
        assert_eq!(rt; refusal.number(), number);
        assert_eq!(rt; refusal.layer(), layer);
        assert_eq!(rt; refusal.place(), place);
    }
}

#[test]
fn equal_if_told_alike(rt: HostRuntime) {
    assert!(rt; Refusal::TableSum(3) == Refusal::TableSum(3));
    assert!(rt; Refusal::TableSum(3) != Refusal::TableSum(4));
    assert!(rt; Refusal::TableSum(3) != Refusal::TableMove(3));
    assert!(rt; Refusal::LadderTries != Refusal::RegisterFull);
}
