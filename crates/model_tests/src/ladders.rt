use crate::told::{Told, told};
use ladder::{Chances, Ladder};
use process::{End, Model, Move, Place, Size, size_of};
use std::test::Fail;

fn chances([target, exit, again]: [u32; 3]) -> Chances {
    Chances {
        target,
        exit,
        again,
    }
}

// tries, the three chances of the option at forty amps and of that at twenty; what is told
const CASES: [(u32, [u32; 3], [u32; 3], Told); 11] = [
    (0, [0, 0, 0], [0, 0, 0], Err((31, 0))),
    (1, [0, 0, 0], [0, 0, 0], Ok(())),
    (4096, [1000, 1000, 1000], [4096, 0, 0], Ok(())),
    (4097, [0, 0, 0], [0, 0, 0], Err((31, 0))),
    (4294967295, [5000, 0, 0], [0, 0, 0], Err((31, 0))),
    (3, [4094, 1, 1], [0, 0, 4096], Ok(())),
    (3, [4095, 1, 1], [0, 4097, 0], Err((32, 0))),
    (3, [0, 4096, 0], [4094, 1, 2], Err((32, 1))),
    (
        3,
        [4294967295, 4294967295, 4294967295],
        [0, 0, 0],
        Err((32, 0)),
    ),
    (3, [4294967295, 1, 0], [0, 0, 0], Err((32, 0))),
    (3, [0, 0, 0], [4294967294, 1, 4097], Err((32, 1))),
];

#[test]
fn numbers(rt: HostRuntime) {
    for (tries, forty, twenty, expected) in CASES {
        let made = Ladder::new(tries, chances(forty), chances(twenty));
        assert_eq!(rt; told(made.map(|_| ())), expected);
    }
}

fn to(place: Place, weight: u32) -> Option<Move> {
    Some(Move { place, weight })
}

#[test]
fn moves_in_order(rt: HostRuntime) -> Result<(), Fail> {
    let ladder = Ladder::new(2, chances([100, 200, 300]), chances([1, 2, 3]))?;
    assert_eq!(rt; ladder.move_at(0, 0, 0), to(Place::End(End::Target), 100));
    assert_eq!(rt; ladder.move_at(0, 0, 1), to(Place::End(End::Exit), 200));
    assert_eq!(rt; ladder.move_at(0, 0, 2), to(Place::State(0), 300));
    assert_eq!(rt; ladder.move_at(0, 0, 3), to(Place::State(1), 3496));
    assert_eq!(rt; ladder.move_at(1, 1, 2), to(Place::State(1), 3));
    assert_eq!(rt; ladder.move_at(1, 1, 3), to(Place::End(End::Exit), 4090));
    assert!(rt;
        ladder.move_at(1, 1, 4).is_none()
            && ladder.move_at(1, 2, 0).is_none()
            && ladder.move_at(2, 0, 0).is_none()
    );
    Ok(())
}

#[test]
fn the_longest_ladder(rt: HostRuntime) -> Result<(), Fail> {
    let ladder = Ladder::new(4096, chances([1, 1, 1]), chances([2, 2, 2]))?;
    let size = Size {
        states: 4096,
        options: 8192,
        moves: 32768,
    };
    assert_eq!(rt; size_of(&ladder), size);
    assert_eq!(rt; Ladder::total_weight(), 4096);
    assert_eq!(rt; ladder.move_at(4095, 0, 3), to(Place::End(End::Exit), 4093));
    assert_eq!(rt; ladder.move_at(4094, 0, 3), to(Place::State(4095), 4093));
    Ok(())
}
