ghost use Rattle.std.specs.Prelude.{◌≡◌, slice_set};

// Lists that a text fills: those of a depot, or a vector's entries in the last. By default they have no place.
// kept: a rule of the project, a depot is read into three lists lent beside one another, with no heap
#[derive(Default, Drop)]
pub struct Lent<'a> {
    pub options: &'a mut [u32],
    pub starts: &'a mut [u32],
    pub moves: &'a mut [u32],
}

// Writes one number, and nothing past the end.
pub fn write_at(list: &mut [u32], index: usize, value: u32)
    ensures { list.new ≡ slice_set list.old index value }
{
    // kept: `get_mut` says nothing of what the slice is afterwards
    if index < list.len() {
        list[index] = value;
    }
}
