// The worked depot as text, and the same with one line changed.
use std::alloc::{AllocError, Global};

pub(crate) fn worked() -> &'static [u8] {
    b"kind=depot\nstates=2\nstate=0\noption=0\nto=1\nweight=500\nto=target\nweight=300\nto=exit\nweight=200\noption=1\nto=0\nweight=400\nto=target\nweight=400\nto=exit\nweight=200\nstate=1\noption=0\nto=target\nweight=600\nto=exit\nweight=400\nend=depot\n"
}

// a text with another line in the place of one, counted from 1; past the last it is added
pub(crate) fn changed(
    heap: Global,
    text: &[u8],
    at: usize,
    line: &[u8],
) -> Result<Vec<u8>, AllocError> {
    let mut out = Vec::new(heap);
    let lines = text.split_inclusive(|b| *b == b'\n').chain([&b""[..]]);
    for (i, old) in lines.enumerate() {
        out.extend_from_slice(if i + 1 == at { line } else { old })?;
    }
    Ok(out)
}
