ghost use Rattle.std.specs.Prelude.{◌≡◌, true, is_ok, if◌then◌else◌, IfOk};
ghost use Rattle.refusal.specs.Tellings.{told, told_as};
ghost use Rattle.encoding.specs.Lent.{lent};
ghost use Rattle.encoding.specs.Reading.{process_read};
ghost use Rattle.encoding.specs.Writing.{encoding as encoding_of, TakenAsSpelled};
ghost use Rattle.encoding.specs.Answers.{answer};
ghost use Rattle.table.specs.View.{lists_of, empty_depot};

use crate::Table;
use crate::checks::check_lists;
use encoding::Lists;
use process::Model as ProcessModel;
use refusal::Refusal;

impl<'a> Table<'a> {
    // The built-in depot: one state, whose one option leads to the exit.
    pub fn empty() -> Self
        ensures lists { lists_of result ≡ encoding_of empty_depot }
        ensures meaning { process_read (lists_of result) ≡ empty_depot }
    {
        Table {
            lists: Lists {
                options: &[0, 1],
                starts: &[0, 1],
                moves: &[4097, 1000],
            },
        }
    }

    // Reads the depot from three lists instead, or refuses them and stays as it was.
    pub fn open(&mut self, lists: Lists<'a>) -> Result<(), Refusal>
        ensures answer { told result ≡ answer 1000 (lent lists.entry) }
        ensures lists { lists_of self.new ≡ (if is_ok result then lent lists.entry else lists_of self.old) }
        ensures spelled { TakenAsSpelled 1000 (lent lists.entry) (is_ok result) (process_read (lists_of self.new)) }
    {
        *self = Table::read(lists)?;
        Ok(())
    }

    // the table over three lists, or what is wrong with them
    fn read(lists: Lists<'a>) -> Result<Self, Refusal>
        ensures answer { told_as (λ t. tt) result ≡ answer 1000 (lent lists.entry) }
        ensures lists { IfOk result (λ t. lists_of t ≡ lent lists.entry) }
    {
        check_lists(Self::SCALE, lists)?;
        Ok(Table { lists })
    }
}
