// The entries of a vector, each by itself.
ghost use Rattle.std.specs.Prelude.{◌≡◌, length, nat_le};
ghost use Rattle.refusal.specs.Tests.{first_bad};
ghost use Rattle.vectors.specs.Verdicts.{marked};

// The index of the first entry above the limit.
pub fn first_above(entries: &[u32], limit: u32) -> Option<usize>
    ensures { result ≡ first_bad (λ x. nat_le x limit) 0 entries.now }
{
    // kept: a rule of the project, this search is a loop over the entries with their index
    for (i, entry) in entries.iter().enumerate() {
        if *entry > limit {
            return Some(i);
        }
    }
    None
}

// Marks the states whose entry is above 0.
pub(crate) fn mark(entries: &[u32], marks: &mut [u8])
    requires { length entries.now ≡ length marks.old }
    ensures { marks.new ≡ marked entries.now }
{
    // kept: of marks that a zip lends one by one a proof knows nothing once the loop is over
    for (i, mark) in marks.iter_mut().enumerate() {
        *mark = u8::from(entries[i] > 0);
    }
}
