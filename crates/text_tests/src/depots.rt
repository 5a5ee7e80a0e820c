use crate::told::told;
use crate::worked::{changed, worked};
use depot_text::load;
use passes::Lent;
use std::test::Fail;

// loads with room to spare
fn tried(text: &[u8]) -> Result<(), (u8, usize)> {
    let mut options = [9; 20];
    let mut starts = [9; 20];
    let mut moves = [9; 40];
    let lists = Lent {
        options: &mut options,
        starts: &mut starts,
        moves: &mut moves,
    };
    load(text, lists).map(|_| ()).map_err(told)
}

// the number of a line, what stands there instead, and what is told
const CASES: [(usize, &'static [u8], Result<(), (u8, usize)>); 37] = [
    (1, b"Kind=depot\n", Err((11, 1))),
    (1, b"kind=depots\n", Err((12, 1))),
    (1, b"kind=7\n", Err((12, 1))),
    (1, b"\n", Err((11, 1))),
    (1, b"kind depot\n", Err((11, 1))),
    (2, b"states=0\n", Err((13, 2))),
    (2, b"states=4097\n", Err((13, 2))),
    (2, b"states=4294967295\n", Err((13, 2))),
    (2, b"states=4096\n", Err((14, 2))),
    (2, b"states=4294967296\n", Err((11, 2))),
    (2, b"states=02\n", Err((11, 2))),
    (2, b"states=two\n", Err((12, 2))),
    (2, b"states=1\n", Err((13, 5))),
    (2, b"states=3\n", Err((12, 24))),
    (2, b"ninechars=2\n", Err((11, 2))),
    (2, b"eightchr=2\n", Err((12, 2))),
    (3, b"state=1\n", Err((12, 3))),
    (4, b"option=1\n", Err((12, 4))),
    (5, b"to=2\n", Err((13, 5))),
    (5, b"to=exit\n", Ok(())),
    (5, b"to=nowhere\n", Err((12, 5))),
    (5, b"to=ninechars\n", Err((11, 5))),
    (6, b"weight=1000\n", Err((15, 11))),
    (6, b"weight=1001\n", Err((13, 6))),
    (6, b"weight=499\n", Err((15, 11))),
    (6, b"weight=0500\n", Err((11, 6))),
    (6, b"weight=\n", Err((11, 6))),
    (6, b"=500\n", Err((11, 6))),
    (17, b"weight=401\n", Err((15, 18))),
    (23, b"weight=401\n", Err((15, 24))),
    (24, b"end=depots\n", Err((12, 24))),
    (24, b"end=depot", Err((11, 24))),
    (24, b"x\n", Err((11, 24))),
    (25, b"x\n", Err((11, 25))),
    (25, b"end=depot\n", Err((12, 25))),
    (12, b"end=depot\n", Err((12, 12))),
    (18, b"end=depot\n", Err((12, 18))),
];

#[test]
fn one_line_changed(rt: HostRuntime) -> Result<(), Fail> {
    for (at, line, expected) in CASES {
        let text = changed(rt.alloc(), worked(), at, line)?;
        assert_eq!(rt; tried(text.as_slice()), expected, "a changed line");
    }
    Ok(())
}

// A text cut after any of its bytes ends early: in the middle of a line that line is malformed, else one is missing.
#[test]
fn cut_anywhere(rt: HostRuntime) {
    let text = worked();
    for end in 0..text.len() {
        let cut = &text[..end];
        let whole = cut.iter().filter(|b| **b == b'\n').count();
        let number = if cut.last().is_some_and(|b| *b != b'\n') {
            11
        } else {
            12
        };
        assert_eq!(rt; tried(cut), Err((number, whole + 1)));
    }
    assert_eq!(rt; tried(text), Ok(()));
}

#[test]
fn the_lists_it_writes(rt: HostRuntime) -> Result<(), Fail> {
    let mut options = [9; 4];
    let mut starts = [9; 5];
    let mut moves = [9; 17];
    let lists = Lent {
        options: &mut options,
        starts: &mut starts,
        moves: &mut moves,
    };
    let size = load(worked(), lists)?;
    assert!(rt; size.states == 2 && size.options == 3 && size.moves == 8);
    assert_eq!(rt; options, [0, 2, 3, 9]);
    assert_eq!(rt; starts, [0, 3, 6, 8, 9]);
    assert_eq!(rt;
        moves,
        [
            1, 500, 4096, 300, 4097, 200, 0, 400, 4096, 400, 4097, 200, 4096, 600, 4097, 400, 9,
        ]
    );
    Ok(())
}

// loads into lists of these lengths, and says whether they are then as they were
fn with_room(a: usize, b: usize, c: usize) -> (Result<(), (u8, usize)>, bool) {
    let mut options = [9; 3];
    let mut starts = [9; 4];
    let mut moves = [9; 16];
    let lists = Lent {
        options: &mut options[..a.min(3)],
        starts: &mut starts[..b.min(4)],
        moves: &mut moves[..c.min(16)],
    };
    let loaded = load(worked(), lists);
    (
        loaded.map(|_| ()).map_err(told),
        options == [9; 3] && starts == [9; 4] && moves == [9; 16],
    )
}

// exactly enough room, and one too few in each list; after a refusal nothing is written
#[test]
fn room(rt: HostRuntime) {
    assert_eq!(rt; with_room(3, 4, 16), (Ok(()), false));
    assert_eq!(rt; with_room(2, 4, 16), (Err((14, 2)), true));
    assert_eq!(rt; with_room(3, 3, 16), (Err((14, 19)), true));
    assert_eq!(rt; with_room(3, 4, 15), (Err((14, 22)), true));
    assert_eq!(rt; with_room(0, 0, 0), (Err((14, 2)), true));
}
