// The kinds of cell: what a cell holds, and how it calculates.
#![tactic(auto)]

pub mod long;
pub mod milli;
pub mod rounding;
pub mod worked;

ghost use Rattle.std.specs.Prelude.{◌≡◌, Bool, true, false};
ghost use Rattle.kinds.specs.Ops.{Ops, flag};

// Why a division has no quotient.
#[derive(Clone, Copy, PartialEq, Eq, Debug)]
pub enum NoQuotient {
    // The divisor is zero.
    ZeroDivisor,
}

// A kind of cell; the type that implements it is what a cell holds. `ops` is its meaning, and each function answers by it.
pub trait Kind: Copy {
    ghost ops: { Ops Self };

    // The kind's number, as the first word of a flat code has it.
    const NUMBER: i32;

    // The same number, tied to the kind's meaning.
    fn code_word() -> i32
        ensures { result ≡ ops.number };

    // The value that means false.
    fn zero() -> Self
        ensures { result ≡ ops.zero };

    // The value that means true.
    fn one() -> Self
        ensures { result ≡ ops.one };

    // Whether a value counts as true. This, the two comparisons, the number above and the way from and to a raw number are each kind's own, though two kinds answer alike: a body here would need a law that
    // truth, order and number are those of the values and the constant, and the theorems about every kind would then hold of fewer.
    fn is_true(self) -> bool
        ensures { result ≡ ops.truth self };

    // The value that a raw number stands for.
    fn read(raw: i32) -> Self
        ensures { result ≡ ops.reading raw };

    // The raw number that a value is written back as.
    fn write(self) -> i32
        ensures { result ≡ ops.writing self };

    // The sum.
    fn add(self, by: Self) -> Self
        ensures { result ≡ ops.sum self by };

    // The difference.
    fn sub(self, by: Self) -> Self
        ensures { result ≡ ops.difference self by };

    // The product.
    fn mul(self, by: Self) -> Self
        ensures { result ≡ ops.product self by };

    // The quotient, or why there is none.
    fn div(self, by: Self) -> Result<Self, NoQuotient>
        ensures { result ≡ ops.quotient self by };

    // Whether this is below the other.
    fn less(self, than: Self) -> bool
        ensures { result ≡ ops.less self than };

    // Whether the two are equal.
    fn same(self, to: Self) -> bool
        ensures { result ≡ ops.same self to };

    // The kind's one is true.
    ghost one_true: { ops.truth ops.one ≡ true };

    // The kind's zero is not.
    ghost zero_untrue: { ops.truth ops.zero ≡ false };
}

// A truth as the kind's one or zero.
pub fn truth_value<K: Kind>(b: bool) -> K
    ensures { result ≡ flag K.ops b }
{
    if b { K::one() } else { K::zero() }
}

#[cfg(test)]
mod tests {
    use super::*;
    use crate::long::Long;
    use crate::milli::Milli;

    // A long wraps, and its quotient drops the fraction.
    #[test]
    fn long_wraps(rt: HostRuntime) {
        assert_eq!(rt; Long(65536).mul(Long(65537)).write(), 65536);
        assert_eq!(rt;
            Long(i32::MIN).div(Long(-1)).unwrap_or(Long(0)).write(),
            i32::MIN
        );
        assert_eq!(rt; Long(-7).div(Long(2)).unwrap_or(Long(0)).write(), -3);
    }

    // A milli stops at the ends, and rounds an exact half away from zero.
    #[test]
    fn milli_stops_and_rounds(rt: HostRuntime) {
        assert_eq!(rt; Milli(i32::MIN).sub(Milli(1)).write(), i32::MIN);
        assert_eq!(rt; Milli(-1).mul(Milli(500)).write(), -1);
        assert!(rt; Milli(1).div(Milli(0)).is_err());
    }

    // What compares as less is told as the kind's one.
    #[test]
    fn truths(rt: HostRuntime) {
        assert_eq!(rt; truth_value::<Milli>(Long(-1).less(Long(0))).write(), 1000);
    }
}
