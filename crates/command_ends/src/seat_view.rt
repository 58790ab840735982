//! What a listener is shown of a seat.

/// A seat between two connections, as a listener is shown it. Nothing can be made through it.
pub trait SeatView {
    ghost use Rattle.std.specs.Prelude.{◌≡◌, MatchBool};

    // It has seen nothing, and nothing was made through it.
    ghost is_new: { Self → Type 0 };

    // From a seat to the same one, which may have learnt what others did since, and through which
    // nothing was made.
    ghost learns: { Self → Self → Type 0 };

    // They are of one cell.
    ghost is_beside: { Self → Self → Type 0 };

    // What the second one has seen goes on from all that the first one has seen.
    ghost begins: { Self → Self → Type 0 };

    // What was made through it is just what the log that it has seen has of its number.
    ghost is_exact: { Self → Type 0 };

    /// A copy.
    fn again(&self) -> Self
        ensures { result ≡ self.now };

    /// What was made through a seat is just what the log that it has seen has of it.
    fn tell_exact(&self)
        ensures { is_exact self.now };

    /// Whether the other one, of the same cell, has seen no fewer entries. It then goes on from
    /// this one, and else this one from it.
    fn sees_no_more(&self, other: &Self) -> bool
        requires { is_beside self.now other.now }
        ensures { MatchBool result (begins self.now other.now) (begins other.now self.now) };
}
