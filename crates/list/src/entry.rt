// What the list asks of a kind of entry: a total order.

ghost use Rattle.std.specs.Prelude.{◌≡◌};
ghost use Rattle.std.specs.declared.cmp.Ordering.{Ordering as Comparison};
ghost use Rattle.list.specs.Order.{TotalOrder};

use std::cmp::Ordering;

/// A kind of entry that a list can hold. Its order is not std's `Ord`, which asks that `==` holds where entries are equal in order: they may
/// differ elsewhere.
pub trait Entry: Copy {
    // How two entries stand to each other in the order.
    ghost compares: { Self → Self → Comparison };

    // That this is a total order.
    ghost total: { TotalOrder compares };

    /// Where this entry stands in the order, beside another.
    fn compare(&self, other: &Self) -> Ordering
        ensures { result ≡ compares self.now other.now };
}
