// Depots of equal states, of any size, as three lists.
use std::alloc::{AllocError, Global};

#[derive(Drop)]
pub(crate) struct Lists {
    options: Vec<u32>,
    starts: Vec<u32>,
    moves: Vec<u32>,
}

impl Lists {
    pub(crate) fn lend(&self) -> encoding::Lists<'_> {
        encoding::Lists {
            options: self.options.as_slice(),
            starts: self.starts.as_slice(),
            moves: self.moves.as_slice(),
        }
    }
}

// Each of so many states has so many options, each of which has so many moves; of those the first leads to the given
// place with all the weight, and the others to the exit with none.
pub(crate) fn equal(
    heap: Global,
    states: u32,
    options: u32,
    moves: u32,
    place: u32,
) -> Result<Lists, AllocError> {
    let all = states.saturating_mul(options);
    let mut list = Vec::new(heap);
    for _ in 0..all {
        list.push(place)?;
        list.push(1000)?;
        for _ in 1..moves {
            list.push(4097)?;
            list.push(0)?;
        }
    }
    Ok(Lists {
        options: steps(heap, states, options)?,
        starts: steps(heap, all, moves)?,
        moves: list,
    })
}

// 0, by, twice by, and so on: one more than count
fn steps(heap: Global, count: u32, by: u32) -> Result<Vec<u32>, AllocError> {
    let mut list = Vec::new(heap);
    for step in 0..=count {
        list.push(step.saturating_mul(by))?;
    }
    Ok(list)
}
