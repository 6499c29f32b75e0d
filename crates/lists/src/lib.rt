// One line of numbers, read from bytes.
#![tactic(auto)]

ghost use Rattle.std.specs.Prelude.{◌≡◌, ◌^◌, ◌<◌, true, ◌∷◌, is_err, position, decimal, FitsSigned};
ghost use Rattle.std.specs.Int.{w32};
ghost use Rattle.numerals.specs.Print.{Kept};
ghost use Rattle.lists.specs.Read.{ListRead};
ghost use Rattle.lists.specs.Steps.{After, Reads, ValuesRead, behind, ends, token};
ghost use Rattle.lists.specs.declared.ListError.TheVariants.{NoMemory};
ghost use Rattle.std.specs.Fmt.{signed_decimal};

use std::alloc::{AllocError, AllocFailed};

#[cfg(test)]
mod tests;

// Why no list was read: the bytes begin with none, or there was no memory for its values.
#[derive(Clone, Copy, PartialEq, Eq, Debug, thiserror::Error)]
pub enum ListError {
    #[error("the bytes begin with no list")]
    NotAList,
    #[error("there is no memory for the values")]
    NoMemory,
}

impl From<AllocError> for ListError {
    ghost from_gives = { λ _ r. r ≡ NoMemory };

    fn from(_e: AllocError) -> ListError {
        ListError::NoMemory
    }
}

impl<T: Drop> From<AllocFailed<T>> for ListError {
    ghost from_gives = { λ _ r. r ≡ NoMemory };

    fn from(_e: AllocFailed<T>) -> ListError {
        ListError::NoMemory
    }
}

// What follows `front` in a text that begins with it.
fn after<'a>(text: &'a [u8], front: &[u8]) -> Option<&'a [u8]>
    ensures { After front.now text.now result }
{
    text.strip_prefix(front)
}

// The number of 32 bits whose digits these are: one or more, and no zero in front of another.
fn natural(digits: &[u8]) -> Option<u32>
    ensures { Reads decimal (λ n. n < 2 ^ 32) digits.now result }
{
    if let [] | [b'0', _, ..] = digits {
        return None;
    }
    let mut n: u32 = 0;
    for d in digits {
        let digit = char::from(*d).to_digit(10)?;
        n = u32::try_from(u64::from(n) * 10 + u64::from(digit)).ok()?;
    }
    Some(n)
}

// The number of 32 bits that these bytes print: its digits, behind a minus sign if it is below 0.
fn integer(bytes: &[u8]) -> Option<i32>
    ensures { Reads signed_decimal (FitsSigned w32) bytes.now result }
{
    let Some(digits) = after(bytes, b"-") else {
        let n = natural(bytes)?;
        return i32::try_from(n).ok();
    };
    match natural(digits)? {
        0 => None,
        magnitude => 0i32.checked_sub_unsigned(magnitude),
    }
}

// Whether a byte is a space or a closing bracket, which end a number.
fn ends(b: u8) -> bool
    ensures { result ≡ ends b }
{
    matches!(b, b' ' | b')')
}

// Where the first byte stands that ends a number.
fn token_end(text: &[u8]) -> Option<usize>
    ensures { result ≡ position ends text.now }
{
    text.iter().position(|b| ends(*b))
}

// The bytes before the first that ends a number, and the others.
fn split_token(text: &[u8]) -> (&[u8], &[u8])
    ensures token { result.0.now ≡ token text.now }
    ensures behind { result.1.now ≡ behind text.now }
{
    text.split_at(token_end(text).unwrap_or(text.len()))
}

// Reads and appends values, each behind a space, as long as there is a space, and gives what follows them.
fn read_values<'a>(text: &'a [u8], values: &mut Vec<i32>) -> Result<&'a [u8], ListError>
    ensures answer { ValuesRead text.now values.old.items result values.new.items }
    ensures kept { Kept values.old.items values.new.items }
{
    let mut left = text;
    while let Some(item) = after(left, b" ") {
        let (bytes, rest) = split_token(item);
        values.push(integer(bytes).ok_or(ListError::NotAList)?)?;
        left = rest;
    }
    Ok(left)
}

// What follows an opening bracket and the head.
fn after_head<'a>(input: &'a [u8], head: &[u8]) -> Option<&'a [u8]>
    ensures { After (40 ∷ head.now) input.now result }
{
    after(after(input, b"(")?, head)
}

// Reads a line, and appends its values as they come.
fn read_line(input: &[u8], head: &[u8], values: &mut Vec<i32>) -> Result<usize, ListError>
    ensures answer { ListRead head.now input.now values.old.items result values.new.items }
    ensures kept { Kept values.old.items values.new.items }
{
    let text = after_head(input, head).ok_or(ListError::NotAList)?;
    let end = read_values(text, values)?;
    let rest = after(end, b")\n").ok_or(ListError::NotAList)?;
    Ok(input.len() - rest.len())
}

// Reads at the start of `input` a line that is the print of a list with this head, and appends its values. Tells how many
// bytes the line has.
pub fn read_list(input: &[u8], head: &[u8], values: &mut Vec<i32>) -> Result<usize, ListError>
    ensures answer { ListRead head.now input.now values.old.items result values.new.items }
    ensures kept { is_err result ≡ true → values.new.items ≡ values.old.items }
{
    let before = values.len();
    let read = read_line(input, head, values);
    if read.is_err() {
        values.truncate(before);
    }
    read
}
