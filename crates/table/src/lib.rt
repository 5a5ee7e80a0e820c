#![tactic(auto)]

ghost use Rattle.std.specs.Prelude.{◌≡◌, true, is_ok};
ghost use Rattle.encoding.specs.Lent.{lent};
ghost use Rattle.encoding.specs.Answers.{answer};

mod checks;
mod opening;
mod queries;
mod reading;

use encoding::Lists;

// A depot table: a process at scale 1,000, read from three lent lists. Every table that exists is well formed.
#[derive(Clone, Copy)]
pub struct Table<'a> {
    lists: Lists<'a>,
    ghost ok: { is_ok (answer 1000 (lent lists)) ≡ true },
}
