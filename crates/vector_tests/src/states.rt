// Caps, floors and delays over the worked depot.
use crate::checks::{Told, states_checked};
use crate::worked::worked;
use kinds::StateKind;
use std::test::Fail;

// kind and entries; the bound, or number and place of the refusal
const CASES: [(StateKind, &'static [u32], Result<u32, Told>); 22] = [
    (StateKind::Delay, &[2, 1], Ok(2)),
    (StateKind::Delay, &[1, 1], Err((43, 0))),
    (StateKind::Delay, &[2, 0], Err((43, 2))),
    (StateKind::Delay, &[1073741824, 1073741824], Ok(1073741824)),
    (StateKind::Delay, &[1073741825, 1073741824], Err((42, 0))),
    (StateKind::Delay, &[1, 4294967295], Err((42, 1))),
    (StateKind::Delay, &[2, 1, 0], Err((41, 0))),
    (StateKind::Floor, &[600000, 600000], Ok(600000)),
    (StateKind::Floor, &[600001, 600000], Err((43, 0))),
    (StateKind::Floor, &[600000, 600001], Err((43, 2))),
    (StateKind::Floor, &[0, 0], Ok(0)),
    (StateKind::Floor, &[1000001, 0], Err((42, 0))),
    (StateKind::Floor, &[600000], Err((41, 0))),
    (StateKind::Cap, &[666667, 600000], Ok(666667)),
    (StateKind::Cap, &[666666, 600000], Err((43, 1))),
    (StateKind::Cap, &[599999, 600000], Err((43, 0))),
    (StateKind::Cap, &[1000000, 599999], Err((43, 2))),
    (StateKind::Cap, &[1000000, 1000000], Ok(1000000)),
    (StateKind::Cap, &[1000001, 0], Err((42, 0))),
    (StateKind::Cap, &[0, 1000001], Err((42, 1))),
    (StateKind::Cap, &[], Err((41, 0))),
    (StateKind::Cap, &[1000001, 0, 0], Err((41, 0))),
];

// the entries of a floor; whether it is accepted, and the marks after it
const MARKS: [(&'static [u32], bool, [u8; 2]); 4] = [
    (&[600000, 600000], true, [1, 1]),
    (&[0, 1], true, [0, 1]),
    (&[600001, 600000], false, [9, 9]),
    (&[1000001, 0], false, [9, 9]),
];

#[test]
fn cases(rt: HostRuntime) -> Result<(), Fail> {
    let table = worked()?;
    for (kind, entries, expected) in CASES {
        let mut marks = [9u8; 2];
        assert_eq!(rt; states_checked(&table, kind, entries, &mut marks), expected);
    }
    Ok(())
}

#[test]
fn floors_mark(rt: HostRuntime) -> Result<(), Fail> {
    let table = worked()?;
    for (entries, accepted, expected) in MARKS {
        let mut marks = [9u8; 2];
        let answer = states_checked(&table, StateKind::Floor, entries, &mut marks);
        assert_eq!(rt; (answer.is_ok(), marks), (accepted, expected));
    }
    let mut short = [9u8; 1];
    let answer = states_checked(&table, StateKind::Floor, &[1000001, 600000], &mut short);
    assert_eq!(rt; (answer, short), (Err((41, 1)), [9]));
    Ok(())
}
