// Decimal numbers and lists of them, as they are printed, and what is printed appended to bytes.
#![tactic(auto)]

ghost use Rattle.numerals.specs.Print.{Appended, Kept, BaseTenDigits, bracketed};
ghost use Rattle.std.specs.Fmt.{WritesOnOk, signed_decimal};
ghost use Rattle.std.specs.Prelude.{◌∷◌, Some, IfSome};

use itoa::Buffer;
use std::alloc::AllocError;
use std::fmt;
use std::fmt::Display;

#[cfg(test)]
mod tests;

// Values that are printed in brackets, with one space between.
#[derive(Clone, Copy)]
pub struct Bracketed<'a>(pub &'a [i32]);

// Writes a value's digits, a minus sign before those of a negative one.
#[inline(always)]
pub fn write_value<W: fmt::Write>(f: &mut fmt::Formatter<W>, value: i32) -> fmt::Result
    ensures { WritesOnOk W.write_str_gives f.old result (signed_decimal value) f.new }
{
    f.write_str(Buffer::new().format(value))
}

// Writes a space and a value.
#[inline(always)]
pub fn write_item<W: fmt::Write>(f: &mut fmt::Formatter<W>, value: i32) -> fmt::Result
    ensures { WritesOnOk W.write_str_gives f.old result (32 ∷ signed_decimal value) f.new }
{
    f.write_str(" ")?;
    write_value(f, value)
}

// The values' print.
impl Display for Bracketed<'_> {
    ghost output = { λ b. Some (bracketed b.0.now) };

    // Writes an opening bracket, the first value, each other value behind a space, and a closing bracket.
    fn fmt<W: fmt::Write>(&self, f: &mut fmt::Formatter<W>) -> fmt::Result {
        let [first, rest @ ..] = self.0 else {
            return f.write_str("()");
        };
        f.write_str("(")?;
        write_value(f, *first)?;
        for value in rest {
            write_item(f, *value)?;
        }
        f.write_str(")")
    }
}

// Appends what a value prints; what stood there stays in front, whatever is answered. The digits that a number is printed by
// are those of base ten.
pub fn push_shown<D: Display + Drop>(out: &mut Vec<u8>, shown: D) -> Result<(), AllocError>
    ensures digits { BaseTenDigits }
    ensures kept { Kept out.old.items out.new.items }
    ensures appended { IfSome (D.output shown) (λ new. Appended out.old.items new result out.new.items) }
{
    let print = shown.to_string(*out.allocator())?;
    out.extend_from_slice(print.as_bytes())
}

// The room that is made for a print before its length is known; one that is longer makes its room larger as it is written.
const ROOM: usize = 256;

// The same, with room made beforehand, which takes less time for a print of many parts. It needs memory for the room even where the
// print is shorter; `push_shown` takes what the print needs, and none for a print of nothing.
pub fn push_shown_with_room<D: Display + Drop>(
    out: &mut Vec<u8>,
    shown: D,
) -> Result<(), AllocError>
    ensures digits { BaseTenDigits }
    ensures kept { Kept out.old.items out.new.items }
    ensures appended { IfSome (D.output shown) (λ new. Appended out.old.items new result out.new.items) }
{
    let mut text = String::with_capacity(*out.allocator(), ROOM)?;
    write!(text, "{shown}")?;
    out.extend_from_slice(text.as_bytes())
}
