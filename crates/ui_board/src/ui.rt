//! What a user interface is told, and what it reports.

ghost use Rattle.std.specs.Prelude.{◌≡◌, ◌==◌, length, IfOk, OnOk, OnErr};
ghost use Rattle.ui_board.specs.Told.{Shown, Drawn, Refused, telling, report_of};

use drawings::{Drawing, Refusal};
use std::alloc::{AllocError, Global};

/// The kinds of user interfaces.
#[derive(Clone, Copy, PartialEq, Eq, Debug)]
pub enum Kind {
    /// It reports the JSON lines of all that it was told.
    Json,
    /// It reports nothing.
    Silent,
    /// It reports what stands on the screen behind all that it was told.
    Screen,
}

/// A user interface, which shows one client what it is told.
pub trait Ui: Drop {
    // Its kind, and all that it was told, in order.
    ghost shown: { Self → Shown };

    /// Its kind.
    fn kind(&self) -> Kind
        ensures { result ≡ (shown self.now).kind };

    /// Whether it was told nothing yet.
    fn is_new(&self) -> bool
        ensures { result ≡ (length (shown self.now).told == 0) };

    /// Shows a drawing. An error is want of memory; then nothing was shown.
    fn show(&mut self, alloc: Global, drawing: &Drawing) -> Result<(), AllocError>
        ensures ok { OnOk result (shown self.new ≡ telling (Drawn drawing.now) (shown self.old)) }
        ensures err { OnErr result (shown self.new ≡ shown self.old) };

    /// Tells why a line of the client is refused. An error is want of memory; then nothing was told.
    fn refuse(&mut self, alloc: Global, refusal: Refusal) -> Result<(), AllocError>
        ensures ok { OnOk result (shown self.new ≡ telling (Refused refusal) (shown self.old)) }
        ensures err { OnErr result (shown self.new ≡ shown self.old) };

    /// What it reports of all that it was told, by its kind. An error is want of memory.
    fn report(&self, alloc: Global) -> Result<Vec<u8>, AllocError>
        ensures { IfOk result (λ bytes. bytes.items ≡ report_of (shown self.now)) };
}

/// A box is the user interface in it.
impl Ui for Box<dyn Ui> {
    ghost shown = { λ ui. (Ui-box ui).shown ui.value };

    fn kind(&self) -> Kind {
        (**self).kind()
    }

    fn is_new(&self) -> bool {
        (**self).is_new()
    }

    fn show(&mut self, alloc: Global, drawing: &Drawing) -> Result<(), AllocError> {
        (**self).show(alloc, drawing)
    }

    fn refuse(&mut self, alloc: Global, refusal: Refusal) -> Result<(), AllocError> {
        (**self).refuse(alloc, refusal)
    }

    fn report(&self, alloc: Global) -> Result<Vec<u8>, AllocError> {
        (**self).report(alloc)
    }
}
