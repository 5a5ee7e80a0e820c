use crate::told::told;
use lines::Text;
use std::test::Fail;
use vector_text::read_vector;

// reads into a list of three entries, and answers how many there are
fn tried(text: &[u8]) -> Result<usize, (u8, usize)> {
    let mut entries = [9; 3];
    read_vector(Text::new(7, text), &mut entries)
        .map(|found| found.count)
        .map_err(told)
}

#[test]
fn refused_or_read(rt: HostRuntime) {
    assert_eq!(rt; tried(b""), Err((12, 7)));
    assert_eq!(rt; tried(b"vector=cap\nend=vector\n"), Ok(0));
    assert_eq!(rt;
        tried(b"vector=risk\nentry=1\nentry=2\nentry=4294967295\nend=vector\nrest\n"),
        Ok(3)
    );
    assert_eq!(rt;
        tried(b"vector=hope\nentry=1\nentry=2\nentry=3\nentry=4\nend=vector\n"),
        Err((14, 11))
    );
    assert_eq!(rt; tried(b"vector=price\n"), Err((12, 7)));
    assert_eq!(rt; tried(b"vector=cap\nentry=01\n"), Err((11, 8)));
    assert_eq!(rt; tried(b"vector=cap\nentry=two\n"), Err((12, 8)));
    assert_eq!(rt; tried(b"vector=cap\nvector=cap\n"), Err((12, 8)));
    assert_eq!(rt; tried(b"entry=1\n"), Err((12, 7)));
    assert_eq!(rt; tried(b"vector=cap\nentry=1\n"), Err((12, 9)));
}

#[test]
fn one_after_another(rt: HostRuntime) -> Result<(), Fail> {
    let mut entries = [9; 3];
    let text = Text::new(
        1,
        b"vector=floor\nentry=5\nend=vector\nvector=delay\nentry=6\nentry=7\nend=vector\n",
    );
    let found = read_vector(text, &mut entries)?;
    assert!(rt; found.count == 1 && found.text.at() == 4);
    assert_eq!(rt; entries, [5, 9, 9]);
    let next = read_vector(found.text, &mut entries)?;
    assert!(rt; next.count == 2 && next.text.at() == 8 && next.text.is_empty());
    assert_eq!(rt; entries, [6, 7, 9]);
    let bad = Text::new(8, b"vector=cap\nentry=1\nend=cap\n");
    assert!(rt; read_vector(bad, &mut entries).is_err());
    assert_eq!(rt; entries, [6, 7, 9]);
    Ok(())
}
