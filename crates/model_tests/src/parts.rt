use crate::told::told;
use ladder::{Chances, Ladder};
use part::Part;
use process::{End, Model, Place};
use std::test::Fail;

// three tries, all alike
fn ladder() -> Result<Ladder, Fail> {
    let chances = Chances {
        target: 1000,
        exit: 96,
        again: 1000,
    };
    Ok(Ladder::new(3, chances, chances)?)
}

// a move that stays in the part, and one that leads to the exit
const ON: Option<bool> = Some(true);

const OFF: Option<bool> = Some(false);

// whether move 0 (to the target), 2 (to the same state) and 3 (to the next) of a state stay in the part, if they are there
fn stays<M: Model>(model: &M, state: usize) -> [Option<bool>; 3]
    requires { M.Model.valid model.now }
{
    [
        lives(model, state, 0),
        lives(model, state, 2),
        lives(model, state, 3),
    ]
}

fn lives<M: Model>(model: &M, state: usize, index: usize) -> Option<bool>
    requires { M.Model.valid model.now }
{
    let found = model.move_at(state, 1, index)?;
    Some(found.place != Place::End(End::Exit))
}

// the constant, as code for every model reads it
fn scale_of<M: Model>(_model: &M) -> u32 {
    M::SCALE
}

#[test]
fn a_part_has_the_scale_below(rt: HostRuntime) -> Result<(), Fail> {
    let part = Part::new(Part::new(ladder()?));
    assert_eq!(rt; scale_of(&part), 4096);
    Ok(())
}

#[test]
fn a_new_part_keeps_nothing(rt: HostRuntime) -> Result<(), Fail> {
    let part = Part::new(ladder()?);
    assert_eq!(rt; stays(&part, 0), [OFF, OFF, OFF]);
    assert_eq!(rt; stays(&part, 3), [None, None, None]);
    assert_eq!(rt; part.states(), 3);
    Ok(())
}

#[test]
fn a_fill_keeps_marked_states(rt: HostRuntime) -> Result<(), Fail> {
    let mut part = Part::new(ladder()?);
    assert_eq!(rt; told(part.fill(&[1, 1])), Ok(()));
    assert_eq!(rt; stays(&part, 0), [ON, ON, ON]);
    assert_eq!(rt; stays(&part, 1), [ON, ON, OFF]);
    assert_eq!(rt; stays(&part, 2), [OFF, OFF, OFF]);
    assert_eq!(rt; told(part.fill(&[0, 1, 1])), Ok(()));
    assert_eq!(rt; stays(&part, 0), [OFF, OFF, OFF]);
    assert_eq!(rt; stays(&part, 1), [ON, ON, ON]);
    Ok(())
}

#[test]
fn a_refused_fill_keeps_the_old_set(rt: HostRuntime) -> Result<(), Fail> {
    let mut part = Part::new(ladder()?);
    assert_eq!(rt; told(part.fill(&[1])), Ok(()));
    assert_eq!(rt; told(part.fill(&[0, 1, 2, 3])), Err((46, 2)));
    assert_eq!(rt; told(part.fill(&[255])), Err((46, 0)));
    assert_eq!(rt; stays(&part, 0), [ON, ON, OFF]);
    Ok(())
}

#[test]
fn the_longest_lists(rt: HostRuntime) -> Result<(), Fail> {
    let mut part = Part::new(ladder()?);
    let mut marks = [1; 4097];
    assert_eq!(rt; told(part.fill(&marks)), Err((46, 4096)));
    marks[4095] = 2;
    assert_eq!(rt; told(part.fill(&marks[0..4096])), Err((46, 4095)));
    assert_eq!(rt; told(part.fill(&marks)), Err((46, 4096)));
    assert_eq!(rt; told(part.fill(&marks[0..4095])), Ok(()));
    assert_eq!(rt; stays(&part, 1), [ON, ON, ON]);
    assert_eq!(rt; told(part.fill(&[])), Ok(()));
    assert_eq!(rt; stays(&part, 1), [OFF, OFF, OFF]);
    Ok(())
}

#[test]
fn a_part_of_a_part(rt: HostRuntime) -> Result<(), Fail> {
    let mut below = Part::new(ladder()?);
    below.fill(&[1, 1, 0])?;
    let mut above = Part::new(below);
    assert_eq!(rt; stays(&above, 0), [OFF, OFF, OFF]);
    above.fill(&[0, 1, 1])?;
    assert_eq!(rt; stays(&above, 0), [OFF, OFF, OFF]);
    assert_eq!(rt; stays(&above, 1), [ON, ON, OFF]);
    assert_eq!(rt; stays(&above, 2), [OFF, OFF, OFF]);
    let back = above.into_below();
    assert_eq!(rt; stays(&back, 0), [ON, ON, ON]);
    assert_eq!(rt; stays(&back.into_below(), 2), [ON, ON, OFF]);
    Ok(())
}
