//! Whether a core knows that its frames fit, that is, that its procedure's invariant holds of them.
ghost use Rattle.std.specs.Prelude.{◌≡◌, true};
ghost use Rattle.sched_laws.specs.Fitted.{RootFits};

use sched_rules::{Procedure, Step, StepOf};

/// Whether all frames are known to fit after this step: they were known to before it, and, if it is a Submit, the
/// procedure says that its new root fits. A Submit that is refused counts too; once this is false it stays so.
#[inline(always)]
pub(crate) fn stays_fitting<P: Procedure>(procedure: &P, fitting: bool, step: &Step<P>) -> bool
    ensures before { result ≡ true → fitting ≡ true }
    ensures root { result ≡ true → RootFits (P.fits procedure.now) (P.rooted procedure.now) step.now }
{
    match step {
        StepOf::Submit(_, words, size) => {
            fitting && procedure.is_fitting_root(words.as_slice(), *size)
        }
        _ => fitting,
    }
}
