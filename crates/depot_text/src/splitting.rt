ghost use Rattle.std.specs.Prelude.{◌≡◌, ◌+◌, ◌≤◌, length};
ghost use Rattle.std.specs.List.{flat_map};
ghost use Rattle.passes.specs.Texts.{lines as lines_of};
ghost use Rattle.depot_text.specs.Splitting.{depot_lines, lines_after};

use lines::Text;

// An input in two: the depot text, and what follows with the number of its first line.
#[derive(Clone, Copy, Debug)]
pub struct Split<'a> {
    pub depot: &'a [u8],
    pub vectors: Text<'a>,
}

// The depot text of an input goes to its first line `end=depot`, and is all of it where there is none.
#[tactic(auto, using(crate::proofs::Parting::parting_more, crate::proofs::Parting::part_none))]
pub fn split_input(input: &[u8]) -> Split<'_>
    ensures depot { result.depot.now ≡ flat_map (λ l. l) (depot_lines (lines_of input.now)) }
    ensures lines { result.vectors.at ≡ length (depot_lines (lines_of input.now)) + 1 }
    ensures rest { result.vectors.rest.now ≡ flat_map (λ l. l) (lines_after (lines_of input.now)) }
    ensures near { result.vectors.at + length result.vectors.rest.now ≤ length input.now + 1 }
{
    let mut text = Text::new(1, input);
    while let Some((line, after)) = text.cut_line() {
        text = after;
        if line == b"end=depot\n".as_slice() {
            return Split {
                depot: &input[..input.len() - text.rest().len()],
                vectors: text,
            };
        }
    }
    Split {
        depot: input,
        vectors: text,
    }
}
