// What a byte is to a line.
ghost use Rattle.std.specs.Prelude.{◌≡◌};
ghost use Rattle.lines.specs.Bytes.{class_of};

#[derive(Clone, Copy, PartialEq, Eq, Debug)]
pub(crate) enum Class {
    Letter,
    Digit,
    Equals,
    Newline,
    Other,
}

impl Class {
    pub(crate) fn of(b: u8) -> Class
        ensures { result ≡ class_of b }
    {
        classify(b as char)
    }
}

fn classify(c: char) -> Class
    ensures { result ≡ class_of c }
{
    match c {
        'a'..='z' => Class::Letter,
        '0'..='9' => Class::Digit,
        '=' => Class::Equals,
        '\n' => Class::Newline,
        _ => Class::Other,
    }
}
