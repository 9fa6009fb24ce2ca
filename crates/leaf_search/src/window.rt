//! The window (alpha, beta) that a serial search looks through.
ghost use Rattle.std.specs.Prelude.{◌≡◌, ◌<ℤ◌, ◌≤ℤ◌, ◌+ℤ◌, neg_ℤ, pos};
ghost use Rattle.std.specs.Int.{int_max};
ghost use Rattle.leaf_search.specs.declared.window.TheConstants.{INF};

/// A bound that no score reaches: the window from `-INF` to `INF` is the full one.
pub const INF: i32 = 200_000;

/// A search window. A value strictly between `alpha` and `beta` is found exactly; of any other value the search finds
/// a bound.
#[derive(Clone, Copy)]
pub(crate) struct Window {
    pub alpha: i32,
    pub beta: i32,
    ghost least: { neg_ℤ INF ≤ℤ alpha },
    ghost open: { alpha <ℤ beta },
    ghost greatest: { beta ≤ℤ INF },
}

impl Window {
    /// The window in which to search the position after the next choice, seen by the opponent, where `best` is the
    /// best score so far: from `-beta` to `-max(alpha, best)`, since only a score above both still counts.
    #[inline(always)]
    pub(crate) fn of_child(self, best: i32) -> Window
        requires { best <ℤ self.beta }
        ensures alpha { result.alpha ≡ neg_ℤ self.beta }
        ensures beta { result.beta ≡ neg_ℤ (int_max self.alpha best) }
    {
        Window {
            alpha: -self.beta,
            beta: -self.alpha.max(best),
        }
    }

    /// The last part of the window, of width one: by its scores a value is below beta, or at least beta.
    #[inline(always)]
    pub(crate) fn last(self) -> Window
        ensures alpha { result.alpha +ℤ pos 1 ≡ self.beta }
        ensures beta { result.beta ≡ self.beta }
    {
        Window {
            alpha: self.beta - 1,
            beta: self.beta,
        }
    }
}
