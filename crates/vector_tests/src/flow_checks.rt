// Hopes and risks over the worked depot, with the marks and the tally that they leave.
use crate::checks::{Told, options_checked};
use crate::worked::worked;
use kinds::FlowKind;
use part::Part;
use process::Model;
use std::test::Fail;
use table::Table;

// What a check gives and leaves: bound and visits, or number and place of the refusal; marks and tally.
#[derive(Clone, Copy, PartialEq, Eq, Debug)]
struct Outcome {
    answer: Result<(u64, u64), Told>,
    marks: [u8; 2],
    tally: [u64; 2],
}

fn found<M: Model>(model: &M, kind: FlowKind, entries: &[u32]) -> Outcome
    requires { M.Model.valid model.now }
{
    let mut marks = [9u8; 2];
    let mut tally = [7u64; 2];
    let answer = options_checked(model, kind, entries, &mut marks, &mut tally).map(|flow| (
        kind.round(model, flow.sum),
        flow.visits,
    ));
    Outcome {
        answer,
        marks,
        tally,
    }
}

// kind and entries; what they give and leave
const CASES: [(FlowKind, &'static [u32], Outcome); 10] = [
    (
        FlowKind::Hope,
        &[0, 1666666, 0],
        Outcome {
            answer: Ok((666666, 1666666)),
            marks: [1, 0],
            tally: [666666400, 0],
        },
    ),
    (
        FlowKind::Hope,
        &[0, 1666667, 0],
        Outcome {
            answer: Err((43, 0)),
            marks: [9, 9],
            tally: [666666800, 0],
        },
    ),
    (
        FlowKind::Hope,
        &[0, 0, 0],
        Outcome {
            answer: Ok((0, 0)),
            marks: [0, 0],
            tally: [0, 0],
        },
    ),
    (
        FlowKind::Hope,
        &[0, 0, 1],
        Outcome {
            answer: Err((43, 1)),
            marks: [9, 9],
            tally: [0, 0],
        },
    ),
    (
        FlowKind::Hope,
        &[1000000, 0, 500000],
        Outcome {
            answer: Ok((600000, 1500000)),
            marks: [1, 1],
            tally: [0, 500000000],
        },
    ),
    (
        FlowKind::Hope,
        &[0, 1073741825, 0],
        Outcome {
            answer: Err((42, 1)),
            marks: [9, 9],
            tally: [7, 7],
        },
    ),
    (
        FlowKind::Risk,
        &[1000000, 0, 500000],
        Outcome {
            answer: Ok((600000, 1500000)),
            marks: [9, 9],
            tally: [0, 500000000],
        },
    ),
    (
        FlowKind::Risk,
        &[999999, 0, 500000],
        Outcome {
            answer: Err((43, 0)),
            marks: [9, 9],
            tally: [0, 499999500],
        },
    ),
    (
        FlowKind::Risk,
        &[1000001, 0, 500001],
        Outcome {
            answer: Ok((600001, 1500002)),
            marks: [9, 9],
            tally: [0, 500000500],
        },
    ),
    (
        FlowKind::Risk,
        &[1000000, 0, 499999],
        Outcome {
            answer: Err((43, 1)),
            marks: [9, 9],
            tally: [0, 500000000],
        },
    ),
];

#[test]
fn cases(rt: HostRuntime) -> Result<(), Fail> {
    let table = worked()?;
    for (kind, entries, expected) in CASES {
        assert_eq!(rt; found(&table, kind, entries), expected);
    }
    Ok(())
}

// The states that a hope marks carry it: it passes over the part that keeps them, with the same bound and marks.
#[test]
fn over_the_marked_part(rt: HostRuntime) -> Result<(), Fail> {
    let table = worked()?;
    let mut part = Part::new(table);
    part.fill(&[1, 0])?;
    let hope = found(&part, FlowKind::Hope, &[0, 1666666, 0]);
    assert_eq!(rt;
        hope,
        Outcome {
            answer: Ok((666666, 1666666)),
            marks: [1, 0],
            tally: [666666400, 0]
        }
    );
    // with no state kept, nothing comes to the target, and the start keeps only what it is granted
    part.fill(&[])?;
    let none = found(&part, FlowKind::Hope, &[0, 1666666, 0]);
    assert_eq!(rt;
        none,
        Outcome {
            answer: Err((43, 0)),
            marks: [9, 9],
            tally: [0, 0]
        }
    );
    let little = found(&part, FlowKind::Hope, &[0, 1000000, 0]);
    assert_eq!(rt;
        little,
        Outcome {
            answer: Ok((0, 1000000)),
            marks: [1, 0],
            tally: [0, 0]
        }
    );
    Ok(())
}

#[test]
fn lengths(rt: HostRuntime) -> Result<(), Fail> {
    let table = worked()?;
    let over = [1073741825u32; 3];
    assert_eq!(rt;
        refused(&table, FlowKind::Hope, &over[0..2], 1, 1),
        Some((41, 0))
    );
    assert_eq!(rt; refused(&table, FlowKind::Hope, &[], 2, 2), Some((41, 0)));
    assert_eq!(rt; refused(&table, FlowKind::Hope, &over, 1, 1), Some((41, 1)));
    assert_eq!(rt; refused(&table, FlowKind::Hope, &over, 3, 1), Some((41, 1)));
    assert_eq!(rt; refused(&table, FlowKind::Hope, &over, 2, 1), Some((41, 2)));
    assert_eq!(rt; refused(&table, FlowKind::Hope, &over, 2, 2), Some((42, 0)));
    assert_eq!(rt;
        refused(&table, FlowKind::Risk, &over[0..2], 0, 1),
        Some((41, 0))
    );
    assert_eq!(rt; refused(&table, FlowKind::Risk, &over, 0, 3), Some((41, 2)));
    assert_eq!(rt; refused(&table, FlowKind::Risk, &over, 0, 2), Some((42, 0)));
    Ok(())
}

fn refused(
    table: &Table,
    kind: FlowKind,
    entries: &[u32],
    marks: usize,
    tally: usize,
) -> Option<Told> {
    let mut bytes = [0u8; 3];
    let mut numbers = [0u64; 3];
    options_checked(
        table,
        kind,
        entries,
        &mut bytes[0..marks.min(3)],
        &mut numbers[0..tally.min(3)],
    )
    .err()
}
