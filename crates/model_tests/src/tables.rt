use crate::shapes::equal;
use crate::told::{Told, told};
use encoding::Lists;
use process::{End, Model, Move, Place, Size, Span, size_of};
use std::test::Fail;
use table::Table;

fn opened<'a>(lists: Lists<'a>) -> Told {
    let mut table: Table<'a> = Table::empty();
    told(table.open(lists))
}

// states, options of each, moves of each, where the first move leads; what is told
const SIZES: [(u32, u32, u32, u32, Told); 13] = [
    (0, 1, 1, 4096, Err((21, 0))),
    (1, 0, 1, 4096, Err((21, 1))),
    (1, 1, 1, 4096, Ok(())),
    (4096, 1, 1, 4095, Ok(())),
    (4095, 1, 1, 4095, Err((23, 0))),
    (4096, 4, 4, 4097, Ok(())),
    (4097, 1, 1, 4096, Err((21, 0))),
    (1, 16384, 1, 4096, Ok(())),
    (1, 16385, 1, 4096, Err((21, 1))),
    (1, 1, 65536, 4096, Ok(())),
    (1, 1, 65537, 4096, Err((21, 2))),
    (2, 2, 2, 4098, Err((23, 0))),
    (2, 2, 2, 4294967295, Err((23, 0))),
];

#[test]
fn sizes(rt: HostRuntime) -> Result<(), Fail> {
    for (states, options, moves, place, expected) in SIZES {
        let lists = equal(rt.alloc(), states, options, moves, place)?;
        assert_eq!(rt; opened(lists.lend()), expected);
    }
    Ok(())
}

const OPTIONS: [u32; 3] = [0, 2, 3];

const STARTS: [u32; 4] = [0, 3, 6, 8];

const MOVES: [u32; 16] = [
    1, 500, 4096, 300, 4097, 200, 0, 400, 4096, 400, 4097, 200, 4096, 600, 4097, 400,
];

const DEPOT: Lists = Lists {
    options: &OPTIONS,
    starts: &STARTS,
    moves: &MOVES,
};

#[derive(Clone, Copy)]
enum List {
    Options,
    Starts,
    Moves,
}

// the worked depot with one number of one list changed
fn changed(list: List, index: usize, value: u32) -> Told {
    let mut options = OPTIONS;
    let mut starts = STARTS;
    let mut moves = MOVES;
    match list {
        List::Options => set(&mut options, index, value),
        List::Starts => set(&mut starts, index, value),
        List::Moves => set(&mut moves, index, value),
    }
    opened(Lists {
        options: &options,
        starts: &starts,
        moves: &moves,
    })
}

fn set(list: &mut [u32], index: usize, value: u32) {
    if let Some(number) = list.get_mut(index) {
        *number = value;
    }
}

// list, index, new value; what is told
const CHANGES: [(List, usize, u32, Told); 24] = [
    (List::Options, 0, 1, Err((22, 0))),
    (List::Options, 1, 0, Err((22, 0))),
    (List::Options, 1, 3, Err((22, 0))),
    (List::Options, 2, 2, Err((22, 0))),
    (List::Options, 2, 4, Err((22, 0))),
    (List::Starts, 0, 1, Err((22, 1))),
    (List::Starts, 1, 6, Err((22, 1))),
    (List::Starts, 2, 2, Err((22, 1))),
    (List::Starts, 3, 7, Err((22, 1))),
    (List::Starts, 3, 4294967295, Err((22, 1))),
    (List::Starts, 1, 2, Err((24, 0))),
    (List::Moves, 0, 0, Ok(())),
    (List::Moves, 0, 2, Err((23, 0))),
    (List::Moves, 0, 4095, Err((23, 0))),
    (List::Moves, 0, 4096, Ok(())),
    (List::Moves, 0, 4097, Ok(())),
    (List::Moves, 0, 4098, Err((23, 0))),
    (List::Moves, 1, 1000, Err((24, 0))),
    (List::Moves, 1, 1001, Err((23, 0))),
    (List::Moves, 1, 499, Err((24, 0))),
    (List::Moves, 7, 401, Err((24, 1))),
    (List::Moves, 14, 2, Err((23, 7))),
    (List::Moves, 15, 401, Err((24, 2))),
    (List::Moves, 15, 4294967295, Err((23, 7))),
];

#[test]
fn changes(rt: HostRuntime) {
    for (list, index, value, expected) in CHANGES {
        assert_eq!(rt; changed(list, index, value), expected);
    }
}

#[test]
fn odd_moves(rt: HostRuntime) {
    let odd = Lists {
        moves: &MOVES[0..15],
        ..DEPOT
    };
    assert_eq!(rt; opened(odd), Err((21, 2)));
    let no_starts = Lists {
        starts: &[],
        moves: &[],
        ..DEPOT
    };
    assert_eq!(rt; opened(no_starts), Err((21, 1)));
    let short = Lists {
        options: &[0],
        starts: &[0],
        moves: &[0],
    };
    assert_eq!(rt; opened(short), Err((21, 0)));
}

#[test]
fn a_refusal_keeps_the_table(rt: HostRuntime) {
    let mut table = Table::empty();
    assert_eq!(rt; told(table.open(DEPOT)), Ok(()));
    let no_moves = Lists {
        moves: &[],
        ..DEPOT
    };
    assert_eq!(rt; told(table.open(no_moves)), Err((21, 2)));
    assert_eq!(rt; size_of(&table).moves, 8);
}

#[test]
fn the_empty_depot(rt: HostRuntime) {
    let table = Table::empty();
    let exit = Move {
        place: Place::End(End::Exit),
        weight: 1000,
    };
    assert_eq!(rt; table.move_at(0, 0, 0), Some(exit));
    assert!(rt; table.move_at(0, 0, 1).is_none());
    assert!(rt; table.options(1).is_none());
}

// the largest table, asked at its last place and past it
#[test]
fn the_largest_table(rt: HostRuntime) -> Result<(), Fail> {
    let lists = equal(rt.alloc(), 4096, 4, 4, 4095)?;
    let mut table = Table::empty();
    table.open(lists.lend())?;
    let size = Size {
        states: 4096,
        options: 16384,
        moves: 65536,
    };
    assert_eq!(rt; size_of(&table), size);
    let span = Span {
        first: 16380,
        count: 4,
    };
    assert_eq!(rt; table.options(4095), Some(span));
    let last = Move {
        place: Place::State(4095),
        weight: 1000,
    };
    assert_eq!(rt; table.move_at(4095, 3, 0), Some(last));
    assert!(rt; table.move_at(4095, 3, 3).is_some());
    assert!(rt; table.move_at(4095, 3, 4).is_none());
    assert!(rt; table.moves(4095, 4).is_none());
    assert!(rt; table.moves(4096, 0).is_none());
    Ok(())
}
