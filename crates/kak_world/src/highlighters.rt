//! The highlighters.

ghost use Rattle.std.specs.Prelude.{◌≡◌, true, false, None, IfErr, OnOk, OnErr};
ghost use Rattle.highlight_paint.specs.declared.highlighters.PaintError.TheVariants.{BadPath};
ghost use Rattle.highlight_paint.specs.Painters.{paints_of};
ghost use Rattle.highlight_paint.specs.Highlighters.{is_held, paint_refusal, IsPaintErrorDue};
ghost use Rattle.kak_world.specs.Flat.{highlighters_of};
ghost use Rattle.kak_world.specs.Scoping.{highlighter_added, highlighter_removed};

use crate::turn::Turn;
use crate::world::World;
use highlight_paint::{Highlighters, PaintError, Painter};
use regex_ports::Pattern;
use scope_options::Scope;
use std::alloc::Global;

#[tactic(auto, unfolding(crate::specs::Flat::scoped_of, crate::specs::Flat::with_scoped))]
impl<P: Pattern, T: Turn> World<P, T> {
    /// The highlighters.
    pub fn highlighters(&self) -> &Highlighters<P>
        ensures { result.now ≡ highlighters_of self.now.flat }
    {
        &self.highlighters
    }

    /// Adds a highlighter of a path at a scope. It is refused as `Highlighters::add` is; an error leaves the world.
    pub fn add_highlighter(
        &mut self,
        alloc: Global,
        scope: Scope,
        path: &str,
        painter: Painter<P>,
        replace: bool,
    ) -> Result<(), PaintError>
        ensures adds { OnOk result (self.new.flat ≡ highlighter_added scope path.now (paints_of P.source painter) self.old.flat) }
        ensures granted { OnOk result (paint_refusal scope path.now replace (highlighters_of self.old.flat) ≡ None) }
        ensures refused { IfErr result (λ e. IsPaintErrorDue e (paint_refusal scope path.now replace (highlighters_of self.old.flat))) }
        ensures err { OnErr result (self.new.flat ≡ self.old.flat) }
    {
        self.highlighters.add(alloc, scope, path, painter, replace)
    }

    /// Removes the highlighter of a path at a scope, and those below it. The error is `BadPath`, exactly where there is none;
    /// it leaves the world.
    pub fn remove_highlighter(&mut self, scope: Scope, path: &str) -> Result<(), PaintError>
        ensures removes { OnOk result (self.new.flat ≡ highlighter_removed scope path.now self.old.flat) }
        ensures held { OnOk result (is_held scope path.now (highlighters_of self.old.flat) ≡ true) }
        ensures refused { IfErr result (λ e. e ≡ BadPath) }
        ensures lacking { OnErr result (is_held scope path.now (highlighters_of self.old.flat) ≡ false) }
        ensures err { OnErr result (self.new.flat ≡ self.old.flat) }
    {
        self.highlighters.remove(scope, path)
    }
}
