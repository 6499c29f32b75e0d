// Long: whole numbers of 32 bits whose results wrap.
#![tactic(auto, using(std::proofs::lemmas::Int::wraps, crate::proofs::Quotients::quotient_wrapped))]

ghost use Rattle.kinds.specs.Longs as Longs;
ghost use Rattle.std.proofs.Common.{rules};

use crate::{Kind, NoQuotient};

// A whole number of 32 bits.
#[derive(Clone, Copy, PartialEq, Eq, PartialOrd, Ord, Debug)]
pub struct Long(pub i32);

// Long as a kind of cell.
impl Kind for Long {
    ghost ops = { Longs.ops };

    const NUMBER: i32 = 1;

    ghost one_true = { Prim.search rules };

    ghost zero_untrue = { Prim.search rules };

    // The kind's number.
    fn code_word() -> i32 {
        Self::NUMBER
    }

    // Zero.
    fn zero() -> Long {
        Long(0)
    }

    // One.
    fn one() -> Long {
        Long(1)
    }

    // Only zero is untrue.
    fn is_true(self) -> bool {
        self != Self::zero()
    }

    // A raw number is the value.
    fn read(raw: i32) -> Long {
        Long(raw)
    }

    // The value is the raw number.
    fn write(self) -> i32 {
        self.0
    }

    // The sum, wrapped.
    fn add(self, by: Long) -> Long {
        Long(self.0.wrapping_add(by.0))
    }

    // The difference, wrapped.
    fn sub(self, by: Long) -> Long {
        Long(self.0.wrapping_sub(by.0))
    }

    // The product, wrapped.
    fn mul(self, by: Long) -> Long {
        Long(self.0.wrapping_mul(by.0))
    }

    // The quotient without its fraction, wrapped.
    fn div(self, by: Long) -> Result<Long, NoQuotient> {
        if by.0 == 0 {
            return Err(NoQuotient::ZeroDivisor);
        }
        Ok(Long(self.0.wrapping_div(by.0)))
    }

    // Whether this is below the other.
    fn less(self, than: Long) -> bool {
        self < than
    }

    // Whether the two are equal.
    fn same(self, to: Long) -> bool {
        self == to
    }
}
