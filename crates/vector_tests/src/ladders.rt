// Checks over ladders and parts of ladders.
use crate::checks::{Told, states_checked};
use flows::check_hope;
use kinds::StateKind;
use ladder::{Chances, Ladder};
use part::Part;
use process::Model;
use std::test::Fail;
use vectors::check_floor;

fn chances(target: u32, exit: u32, again: u32) -> Chances {
    Chances {
        target,
        exit,
        again,
    }
}

fn refused<M: Model>(model: &M, kind: StateKind, entries: &[u32]) -> Option<Told>
    requires { M.Model.valid model.now }
{
    states_checked(model, kind, entries, &mut []).err()
}

// A ladder that only waits: its floor meets the inequality though the target is never reached, and no delay passes.
#[test]
fn waiting_for_good(rt: HostRuntime) -> Result<(), Fail> {
    let ladder = Ladder::new(1, chances(0, 0, 4096), chances(0, 0, 4096))?;
    let mut marks = [0u8; 1];
    assert_eq!(rt; check_floor(&ladder, &[1000000], &mut marks)?, 1000000);
    assert_eq!(rt; marks[0], 1);
    for delay in [0u32, 1, 2, 1000000, 1073741824] {
        assert_eq!(rt; refused(&ladder, StateKind::Delay, &[delay]), Some((43, 0)));
    }
    Ok(())
}

// Two tries; at forty amps half of the weight to the target, at twenty a quarter and a quarter again.
#[test]
fn two_tries(rt: HostRuntime) -> Result<(), Fail> {
    let ladder = Ladder::new(2, chances(2048, 1024, 0), chances(1024, 0, 1024))?;
    assert_eq!(rt; refused(&ladder, StateKind::Cap, &[666667, 500000]), None);
    assert_eq!(rt;
        refused(&ladder, StateKind::Cap, &[666666, 500000]),
        Some((43, 1))
    );
    assert_eq!(rt;
        refused(&ladder, StateKind::Cap, &[666667, 499999]),
        Some((43, 2))
    );
    assert_eq!(rt; refused(&ladder, StateKind::Delay, &[3, 2]), None);
    assert_eq!(rt; refused(&ladder, StateKind::Delay, &[2, 2]), Some((43, 1)));
    assert_eq!(rt; refused(&ladder, StateKind::Delay, &[3, 1]), Some((43, 3)));
    Ok(())
}

// The same with its first state alone, and as a part of a part.
#[test]
fn parts_of_two_tries(rt: HostRuntime) -> Result<(), Fail> {
    let ladder = Ladder::new(2, chances(2048, 1024, 0), chances(1024, 0, 1024))?;
    let mut part = Part::new(ladder);
    part.fill(&[1])?;
    assert_eq!(rt; refused(&part, StateKind::Cap, &[500000, 0]), None);
    assert_eq!(rt; refused(&part, StateKind::Cap, &[499999, 0]), Some((43, 0)));
    let mut inner = Part::new(part);
    inner.fill(&[1, 1])?;
    assert_eq!(rt; refused(&inner, StateKind::Cap, &[500000, 0]), None);
    assert_eq!(rt;
        refused(&inner, StateKind::Cap, &[499999, 0]),
        Some((43, 0))
    );
    inner.fill(&[0, 1])?;
    assert_eq!(rt; refused(&inner, StateKind::Cap, &[0, 0]), None);
    Ok(())
}

// The longest ladder: certainty caps it, and one unit of flow through its second option comes to the target in part.
#[test]
fn the_longest_ladder(rt: HostRuntime) -> Result<(), Fail> {
    let ladder = Ladder::new(4096, chances(4096, 0, 0), chances(1, 0, 0))?;
    let caps = vec![in rt.alloc(); 1000000u32; 4096]?;
    assert_eq!(rt; refused(&ladder, StateKind::Cap, caps.as_slice()), None);
    let mut flows = vec![in rt.alloc(); 0u32; 8192]?;
    let mut marks = vec![in rt.alloc(); 0u8; 4096]?;
    let mut tally = vec![in rt.alloc(); 0u64; 4096]?;
    if let Some(flow) = flows.get_mut(0) {
        *flow = 1000000;
    }
    let flow = check_hope(
        &ladder,
        flows.as_slice(),
        marks.as_mut_slice(),
        tally.as_mut_slice(),
    )?;
    assert_eq!(rt; flow.sum, 4096000000);
    assert_eq!(rt; flow.visits, 1000000);
    Ok(())
}
