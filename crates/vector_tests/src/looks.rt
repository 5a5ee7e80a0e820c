// Look-ahead over the worked depot, and where it is refused.
use crate::checks::{Told, told};
use crate::worked::worked;
use encoding::Lists;
use lookahead::{Outlook, look_ahead};
use std::test::Fail;
use table::Table;

// Within two moves the best is 300,000 and 500 times 600, and the worst 400,000 and 400 times 300.
#[test]
fn worked_depths(rt: HostRuntime) -> Result<(), Fail> {
    let table = worked()?;
    for (depth, greatest, least) in [
        (0, 0, 0),
        (1, 400, 300),
        (2, 600000, 520000),
        (3, 640000000, 600000000),
    ] {
        assert_eq!(rt; look_ahead(&table, depth)?, Outlook { greatest, least });
    }
    Ok(())
}

// the built-in depot never reaches the target, at the greatest depth either
#[test]
fn depths(rt: HostRuntime) -> Result<(), Fail> {
    let table = Table::empty();
    assert_eq!(rt;
        look_ahead(&table, 6)?,
        Outlook {
            greatest: 0,
            least: 0
        }
    );
    assert_eq!(rt; refused(&table, 7), Some((44, 7)));
    assert_eq!(rt; refused(&table, 4294967295), Some((44, 4294967295)));
    Ok(())
}

fn refused(table: &Table, depth: u32) -> Option<Told> {
    look_ahead(table, depth).err().map(told)
}

// two states; the second has two options, with 8 moves and as many as are given
fn crowded(heap: std::alloc::Global, moves: u32) -> Result<Vec<u32>, std::alloc::AllocError> {
    let mut list = Vec::new(heap);
    list.push(4096u32)?;
    list.push(1000)?;
    for count in [8, moves] {
        list.push(4096)?;
        list.push(1000)?;
        for _ in 1..count {
            list.push(4097)?;
            list.push(0)?;
        }
    }
    Ok(list)
}

#[test]
fn wide_states(rt: HostRuntime) -> Result<(), Fail> {
    let mut table = Table::empty();
    let sixteen = crowded(rt.alloc(), 8)?;
    table.open(Lists {
        options: &[0, 1, 3],
        starts: &[0, 1, 9, 17],
        moves: sixteen.as_slice(),
    })?;
    assert_eq!(rt; look_ahead(&table, 3)?.greatest, 1000000000);
    let seventeen = crowded(rt.alloc(), 9)?;
    table.open(Lists {
        options: &[0, 1, 3],
        starts: &[0, 1, 9, 18],
        moves: seventeen.as_slice(),
    })?;
    assert_eq!(rt; refused(&table, 3), Some((44, 1)));
    assert_eq!(rt; refused(&table, 0), Some((44, 1)));
    assert_eq!(rt; refused(&table, 9), Some((44, 9)));
    Ok(())
}
