//! Comparisons of integers, and conversions between their widths.
ghost use Rattle.std.specs.Prelude.{◌≡◌, IsTrue};
ghost use Rattle.ir_values.specs.Arithmetic as spec;

use crate::int::{Conv, Int, Pred, Width};

/// Whether the predicate holds of two integers of one width (LLVM Language Reference, 'icmp
/// Instruction'). It takes no memory.
#[tactic(auto, unfolding(crate::specs::Arithmetic::compare_of))]
pub fn compare(p: Pred, a: Int, b: Int) -> bool
    requires { a.width ≡ b.width }
    ensures { result ≡ spec.compare_of p a b }
{
    match p {
        Pred::Eq => a.bits() == b.bits(),
        Pred::Ne => a.bits() != b.bits(),
        Pred::Ugt => a.bits() > b.bits(),
        Pred::Uge => a.bits() >= b.bits(),
        Pred::Ult => a.bits() < b.bits(),
        Pred::Ule => a.bits() <= b.bits(),
        Pred::Sgt => a.signed() > b.signed(),
        Pred::Sge => a.signed() >= b.signed(),
        Pred::Slt => a.signed() < b.signed(),
        Pred::Sle => a.signed() <= b.signed(),
    }
}

impl Conv {
    /// Whether it leads from one width to another: `ZExt` and `SExt` to a wider one, `Trunc` to a
    /// narrower one.
    pub fn leads(self, from: Width, to: Width) -> bool
        ensures { result ≡ spec.converts self from to }
    {
        match self {
            Conv::ZExt | Conv::SExt => from.bits() < to.bits(),
            Conv::Trunc => to.bits() < from.bits(),
        }
    }
}

/// The integer converted to the width `to`, which is wider than its own for `ZExt` and `SExt` and
/// narrower for `Trunc`: `ZExt` keeps the unsigned value, `SExt` the signed value, and `Trunc` the
/// value modulo 2 to the new width (LLVM Language Reference, 'Conversion Operations'). It takes no
/// memory.
#[tactic(auto, unfolding(crate::specs::Arithmetic::convert_of))]
pub fn convert(c: Conv, a: Int, to: Width) -> Int
    requires { IsTrue (spec.converts c a.width to) }
    ensures { result ≡ spec.convert_of c a to }
{
    match c {
        Conv::ZExt | Conv::Trunc => Int::modulo(to, i128::from(a.bits())),
        Conv::SExt => Int::modulo(to, i128::from(a.signed())),
    }
}
