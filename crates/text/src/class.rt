// The classes of bytes, and which bytes make a number.
ghost use Rattle.std.specs.Prelude.{◌≡◌};
ghost use Rattle.text.specs.Bytes.{class_of, grows, complete};

// What a byte can be: a bracket, a space, a line feed, a minus sign, a digit, a letter, or nothing that a text has.
#[derive(Clone, Copy)]
pub(crate) enum Class {
    Open,
    Close,
    Space,
    Feed,
    Minus,
    Digit,
    Letter,
    Other,
}

// The class of a byte.
pub(crate) fn class_of(b: u8) -> Class
    ensures { result ≡ class_of b }
{
    match b as char {
        '(' => Class::Open,
        ')' => Class::Close,
        ' ' => Class::Space,
        '\n' => Class::Feed,
        '-' => Class::Minus,
        '0'..='9' => Class::Digit,
        'A'..='Z' | 'a'..='z' => Class::Letter,
        _ => Class::Other,
    }
}

// Whether the digit b may follow what a number has so far: none behind a first 0, and no 0 behind a minus sign.
pub(crate) fn may_grow(number: &[u8], b: u8) -> bool
    ensures { result ≡ grows number.now b }
{
    match number {
        [b'0'] => false,
        [b'-'] => b != b'0',
        _ => true,
    }
}

// Whether it is a number, and not a minus sign alone.
pub(crate) fn is_number(number: &[u8]) -> bool
    ensures { result ≡ complete number.now }
{
    !matches!(number, [] | [b'-'])
}
