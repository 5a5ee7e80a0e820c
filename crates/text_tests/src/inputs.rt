use depot_text::split_input;

// how long the depot text is, how many lines it has, and how long what follows is
fn parts(input: &[u8]) -> (usize, usize, usize) {
    let split = split_input(input);
    (
        split.depot.len(),
        split.vectors.at().saturating_sub(1),
        split.vectors.rest().len(),
    )
}

#[test]
fn split_after_the_first_end(rt: HostRuntime) {
    assert_eq!(rt; parts(b""), (0, 0, 0));
    assert_eq!(rt; parts(b"a=b\nc=d"), (7, 2, 0));
    assert_eq!(rt; parts(b"a=b\nend=depot\nend=depot\n"), (14, 2, 10));
    assert_eq!(rt; parts(b"end=depot"), (9, 1, 0));
    assert_eq!(rt; parts(b"end=depot\n"), (10, 1, 0));
}
