//! Texts that come one after another.

ghost use Rattle.std.specs.Prelude.{◌≡◌, ℕ, List, IfOk};
ghost use Rattle.std.specs.Prelude.{string_bytes};
ghost use Rattle.regex_ports.specs.Series.{IsNext};

use std::alloc::AllocError;

/// Texts that come one after another, in one string that holds one of them at a time.
pub trait Texts {
    // The texts that are still to come.
    ghost left: { Self → List (List ℕ) };

    /// Makes a string the next text, and tells whether there was one.
    fn next(&mut self, text: &mut String) -> Result<bool, AllocError>
        ensures { IfOk result (λ more. IsNext more (left self.old) (string_bytes text.new) (left self.new)) };
}
