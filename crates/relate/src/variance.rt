// The variance of a part of a type.
ghost use Rattle.std.specs.Prelude.{◌≡◌};
ghost use Rattle.nll_spec.specs.Constraints.{invert, within, referent_variance};
ghost use Rattle.repr.specs.Reading.{borrow_kind_of, variance_of};

use repr::{BorrowKind, Variance};

pub fn invert(v: Variance) -> Variance
    ensures { variance_of result ≡ invert (variance_of v) }
{
    match v {
        Variance::Co => Variance::Contra,
        Variance::Contra => Variance::Co,
        Variance::In => Variance::In,
    }
}

// The variance of a part, within a whole that stands at the first variance.
pub fn within(whole: Variance, part: Variance) -> Variance
    ensures { variance_of result ≡ within (variance_of whole) (variance_of part) }
{
    match whole {
        Variance::Co => part,
        Variance::Contra => invert(part),
        Variance::In => Variance::In,
    }
}

// The variance of what a Ref refers to.
pub fn referent_variance(kind: BorrowKind) -> Variance
    ensures { variance_of result ≡ referent_variance (borrow_kind_of kind) }
{
    match kind {
        BorrowKind::Mut => Variance::In,
        BorrowKind::Shared => Variance::Co,
    }
}
