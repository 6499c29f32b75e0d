// Milli: thousandths of 32 bits whose results stop at the ends.
ghost use Rattle.kinds.specs.Millis as Millis;
ghost use Rattle.std.proofs.Common.{rules};

use crate::{Kind, NoQuotient, rounding};

// A number of thousandths.
#[derive(Clone, Copy, PartialEq, Eq, PartialOrd, Ord, Debug)]
pub struct Milli(pub i32);

// How many thousandths are one.
const WHOLE: i32 = 1000;

// Milli as a kind of cell.
impl Kind for Milli {
    ghost ops = { Millis.ops };

    const NUMBER: i32 = 2;

    ghost one_true = { Prim.search rules };

    ghost zero_untrue = { Prim.search rules };

    // The kind's number.
    fn code_word() -> i32 {
        Self::NUMBER
    }

    // Zero.
    fn zero() -> Milli {
        Milli(0)
    }

    // A thousand thousandths.
    fn one() -> Milli {
        Milli(WHOLE)
    }

    // Only zero is untrue.
    fn is_true(self) -> bool {
        self != Self::zero()
    }

    // A raw number is the value.
    fn read(raw: i32) -> Milli {
        Milli(raw)
    }

    // The value is the raw number.
    fn write(self) -> i32 {
        self.0
    }

    // The sum, stopped at the ends.
    fn add(self, by: Milli) -> Milli {
        Milli(self.0.saturating_add(by.0))
    }

    // The difference, stopped at the ends.
    fn sub(self, by: Milli) -> Milli {
        Milli(self.0.saturating_sub(by.0))
    }

    // The product; that of the raw numbers is a thousand times too large.
    fn mul(self, by: Milli) -> Milli {
        let product = rounding::product(self.0, by.0);
        Milli(rounding::stop(rounding::nearest(product, i64::from(WHOLE))))
    }

    // The quotient; that of the raw numbers is a thousand times too small.
    fn div(self, by: Milli) -> Result<Milli, NoQuotient> {
        if by.0 == 0 {
            return Err(NoQuotient::ZeroDivisor);
        }
        let dividend = rounding::product(WHOLE, self.0);
        Ok(Milli(rounding::stop(rounding::nearest(dividend, i64::from(by.0)))))
    }

    // Whether this is below the other.
    fn less(self, than: Milli) -> bool {
        self < than
    }

    // Whether the two are equal.
    fn same(self, to: Milli) -> bool {
        self == to
    }
}
