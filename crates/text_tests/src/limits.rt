use crate::told::told;
use depot_text::load;
use passes::Lent;
use std::alloc::{AllocError, Global};
use std::test::Fail;

// one state with so many options, each of so many moves
fn large(heap: Global, options: u32, moves: u32) -> Result<Vec<u8>, AllocError> {
    let mut text = Vec::new(heap);
    text.extend_from_slice(b"kind=depot\nstates=1\nstate=0\n")?;
    for option in 0..options {
        let line = format!(in heap; "option={option}\n")?;
        text.extend_from_slice(line.as_bytes())?;
        for _ in 1..moves {
            text.extend_from_slice(b"to=exit\nweight=0\n")?;
        }
        text.extend_from_slice(b"to=target\nweight=1000\n")?;
    }
    text.extend_from_slice(b"end=depot\n")?;
    Ok(text)
}

// how many moves are loaded, into lists that hold more than a model may have
fn tried(heap: Global, text: &[u8]) -> Result<Result<usize, (u8, usize)>, AllocError> {
    let mut options = vec![in heap; 0u32; 10]?;
    let mut starts = vec![in heap; 0u32; 20000]?;
    let mut moves = vec![in heap; 0u32; 140000]?;
    let lists = Lent {
        options: options.as_mut_slice(),
        starts: starts.as_mut_slice(),
        moves: moves.as_mut_slice(),
    };
    let loaded = load(text, lists);
    Ok(loaded.map(|size| size.moves).map_err(told))
}

// options, moves of each, and how many moves are loaded or what is refused
const CASES: [(u32, u32, Result<usize, (u8, usize)>); 4] = [
    (16384, 1, Ok(16384)),
    (16385, 1, Err((14, 49156))),
    (1, 65536, Ok(65536)),
    (1, 65537, Err((14, 131077))),
];

#[test]
fn limits(rt: HostRuntime) -> Result<(), Fail> {
    for (options, moves, expected) in CASES {
        let text = large(rt.alloc(), options, moves)?;
        assert_eq!(rt; tried(rt.alloc(), text.as_slice())?, expected);
    }
    Ok(())
}
