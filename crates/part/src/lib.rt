#![tactic(auto)]

ghost use Rattle.std.specs.Prelude.{◌≡◌, ◌<◌, ◌≤◌, length, nat_lt, position, is_ok, if◌then◌else◌};
ghost use Rattle.refusal.specs.Tellings.{told};
ghost use Rattle.process.specs.Process.{Within};
ghost use Rattle.process.specs.Parts.{sent as sent_to, kept_move, part_of};
ghost use Rattle.process.proofs.Parts.{part_formed};
ghost use Rattle.part.specs.Marks.{set_of, none, marked, answer, leaves};

use process::{End, Model as ProcessModel, Move, Place, Span};
use refusal::Refusal;

// A model that keeps some of the states of the one below: a move leads to the exit if its own state or the state that
// it leads to is not kept. The set is the part's own, so nothing stays borrowed after a fill.
#[derive(Drop)]
pub struct Part<M: ProcessModel> {
    below: M,
    // kept: an array with room for the most states, since there is no heap
    kept: [bool; 4096],
    ghost long: { length kept ≡ 4096 },
}

impl<M: ProcessModel> Part<M> {
    // A part that keeps no state yet.
    pub fn new(below: M) -> Self
        ensures below { result.below ≡ below }
        ensures set { set_of result.kept ≡ none }
    {
        Part {
            below,
            kept: [false; 4096],
        }
    }

    // Keeps the states whose mark is 1, and no state past the list. A refusal keeps the old set.
    pub fn fill(&mut self, marks: &[u8]) -> Result<(), Refusal>
        ensures answer { told result ≡ answer marks.now }
        ensures set { set_of self.new.kept ≡ (if is_ok result then marked marks.now else set_of self.old.kept) }
        ensures below { self.new.below ≡ self.old.below }
    {
        check_marks(marks)?;
        self.kept = flags(marks);
        Ok(())
    }

    // Hands the model below back.
    pub fn into_below(self) -> M
        ensures { result ≡ self.below }
    {
        let Part { below, kept: _ } = self;
        below
    }

    fn keeps_place(&self, place: Place) -> bool
        requires { Within 4096 place }
        ensures { result ≡ leaves (set_of self.now.kept) place }
    {
        match place {
            Place::State(state) => self.kept[state as usize],
            Place::End(_) => true,
        }
    }

    // a move of a state as it is in the part
    fn sent(&self, state: usize, m: Move) -> Move
        requires state { state < 4096 }
        requires place { Within 4096 m.place }
        ensures { result ≡ sent_to (kept_move (set_of self.now.kept) state) m }
    {
        let stays = self.kept[state] & self.keeps_place(m.place);
        Move {
            place: if stays {
                m.place
            } else {
                Place::End(End::Exit)
            },
            weight: m.weight,
        }
    }
}

fn check_marks(marks: &[u8]) -> Result<(), Refusal>
    ensures { told result ≡ answer marks.now }
{
    if marks.len() > 4096 {
        return Err(Refusal::PartMarks(4096));
    }
    match bad_mark(marks) {
        Some(i) => Err(Refusal::PartMarks(i)),
        None => Ok(()),
    }
}

// the first mark that is neither 0 nor 1
fn bad_mark(marks: &[u8]) -> Option<usize>
    ensures { result ≡ position (λ b. nat_lt 1 b) marks.now }
{
    marks.iter().position(|mark| *mark > 1)
}

// the marks as flags, false past the list
// kept: `array::from_fn` makes each of the 4,096 flags by a call, which takes many times as long for few marks
fn flags(marks: &[u8]) -> [bool; 4096]
    requires { length marks.now ≤ 4096 }
    ensures { set_of result ≡ marked marks.now }
{
    let mut set = [false; 4096];
    for (i, mark) in marks.iter().enumerate() {
        set[i] = *mark == 1;
    }
    set
}

#[tactic(auto, using(crate::proofs::Queries::part_queries))]
impl<M: ProcessModel> ProcessModel for Part<M> {
    const SCALE: u32 = M::SCALE;

    ghost scale = { M.Model.scale };

    ghost meaning = { λ p. part_of (set_of p.kept) (M.Model.meaning p.below) };

    ghost valid = { λ p. M.Model.valid p.below };

    ghost formed = { λ p v. part_formed (set_of p.kept) M.Model.scale (M.Model.meaning p.below) (M.Model.formed p.below v) };

    fn total_weight() -> u32
        ensures { result ≡ M.Model.scale }
    {
        M::total_weight()
    }

    fn states(&self) -> usize {
        self.below.states()
    }

    fn options(&self, state: usize) -> Option<Span> {
        self.below.options(state)
    }

    fn moves(&self, state: usize, option: usize) -> Option<usize> {
        self.below.moves(state, option)
    }

    fn move_at(&self, state: usize, option: usize, index: usize) -> Option<Move> {
        let found = self.below.move_at(state, option, index)?;
        Some(self.sent(state, found))
    }
}
