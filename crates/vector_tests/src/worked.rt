// The worked depot of two states and three options.
use encoding::Lists;
use refusal::Refusal;
use table::Table;

const DEPOT: Lists = Lists {
    options: &[0, 2, 3],
    starts: &[0, 3, 6, 8],
    moves: &[
        1, 500, 4096, 300, 4097, 200, 0, 400, 4096, 400, 4097, 200, 4096, 600, 4097, 400,
    ],
};

pub(crate) fn worked() -> Result<Table<'static>, Refusal> {
    let mut table = Table::empty();
    table.open(DEPOT)?;
    Ok(table)
}
