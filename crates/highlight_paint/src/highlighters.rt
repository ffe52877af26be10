//! The highlighters of a session.

ghost use Rattle.std.specs.Prelude.{◌≡◌, [], true, false, Some, None, IfErr, OnOk, OnErr};
ghost use Rattle.tables.specs.Tables.{put_where};
ghost use Rattle.scope_options.specs.Scopes.{is_same_scope, is_of_client, is_of_buffer};
ghost use Rattle.highlight_paint.specs.declared.highlighters.PaintError.TheVariants.{BadPath, NoMemory};
ghost use Rattle.highlight_paint.specs.Painters.{paints_of};
ghost use Rattle.highlight_paint.specs.Highlighters.{is_highlighter, is_held, paint_refusal, with_highlighter, without_highlighter, without_below, without_scopes, IsPaintErrorDue};

use crate::painter::Painter;
use crate::rows::{
    HighlighterRow, has_parent, highlighter_place, is_below_highlighter, is_held, is_highlighter,
};
use crate::scopes::{is_of_buffer, is_of_client, is_same_scope};
use byte_texts::Utf8Text;
use regex_ports::Pattern;
use scope_options::Scope;
use std::alloc::{AllocError, Global};
use std::marker::Model;
use thiserror::Error;

/// Why a highlighter isn't added or removed.
#[derive(Clone, Copy, PartialEq, Eq, Debug, Error)]
pub enum PaintError {
    /// The path stands below what isn't a group that is there; or, where one is removed, it isn't there.
    #[error("no such highlighter")]
    BadPath,
    /// There is a highlighter of this path.
    #[error("highlighter exists")]
    PathTaken,
    /// Memory ran out.
    #[error("out of memory")]
    NoMemory,
}

impl From<AllocError> for PaintError {
    ghost from_gives = { λ _ e. e ≡ NoMemory };

    fn from(_error: AllocError) -> PaintError {
        PaintError::NoMemory
    }
}

/// All highlighters. Contracts see them in the order in which they were added, each with its scope and its path without the
/// word of the scope.
#[derive(Drop)]
pub struct Highlighters<P: Pattern> {
    pub(crate) rows: Vec<HighlighterRow<P>>,
}

impl<P: Pattern> Model for Highlighters<P> {
    ghost use Rattle.std.specs.Prelude.{List};
    ghost use Rattle.highlight_paint.specs.Painters.{Highlighter};

    ghost Value = { List Highlighter };

    ghost view = { λ h. h.rows.items };
}

impl<P: Pattern> Highlighters<P> {
    /// No highlighters; takes no memory.
    pub fn new(alloc: Global) -> Highlighters<P>
        ensures { result ≡ [] }
    {
        Highlighters {
            rows: Vec::new(alloc),
        }
    }

    /// Whether a highlighter may be added. The errors are, in this order, `BadPath`, exactly where the path stands below
    /// another one that is no group at the scope, and `PathTaken`, exactly where there is a highlighter of this path at the
    /// scope and none may be replaced.
    pub fn may_add(&self, scope: Scope, path: &str, replace: bool) -> Result<(), PaintError>
        ensures granted { OnOk result (paint_refusal scope path.now replace self.now ≡ None) }
        ensures refused { IfErr result (λ e. paint_refusal scope path.now replace self.now ≡ Some e) }
    {
        let rows = self.rows.as_slice();
        if !has_parent(rows, scope, path) {
            return Err(PaintError::BadPath);
        }
        if !replace && is_held(rows, scope, path) {
            return Err(PaintError::PathTaken);
        }
        Ok(())
    }

    /// Adds a highlighter behind all others, or, where one of this path may be replaced and is there, in its place and
    /// without those below it. The errors are those of `may_add`, and, where it has none, `NoMemory`. They leave all as it
    /// was.
    pub fn add(
        &mut self,
        alloc: Global,
        scope: Scope,
        path: &str,
        painter: Painter<P>,
        replace: bool,
    ) -> Result<(), PaintError>
        ensures adds { OnOk result (self.new ≡ with_highlighter scope path.now (paints_of P.source painter) self.old) }
        ensures granted { OnOk result (paint_refusal scope path.now replace self.old ≡ None) }
        ensures refused { IfErr result (λ e. IsPaintErrorDue e (paint_refusal scope path.now replace self.old)) }
        ensures err { OnErr result (self.new ≡ self.old) }
    {
        self.may_add(scope, path, replace)?;
        let name = Utf8Text::from_str(alloc, path)?;
        self.put(HighlighterRow {
            scope,
            path: name,
            painter,
        })?;
        self.drop_below(scope, path);
        Ok(())
    }

    /// Removes a highlighter, and those below it. The error is `BadPath`, exactly where there is no highlighter of this path
    /// at the scope; it leaves all as it was.
    pub fn remove(&mut self, scope: Scope, path: &str) -> Result<(), PaintError>
        ensures removes { OnOk result (self.new ≡ without_highlighter scope path.now self.old) }
        ensures held { OnOk result (is_held scope path.now self.old ≡ true) }
        ensures refused { IfErr result (λ e. e ≡ BadPath) }
        ensures lacking { OnErr result (is_held scope path.now self.old ≡ false) }
        ensures err { OnErr result (self.new ≡ self.old) }
    {
        if !is_held(self.rows.as_slice(), scope, path) {
            return Err(PaintError::BadPath);
        }
        self.rows.retain(|row| !is_highlighter(row, scope, path));
        self.drop_below(scope, path);
        Ok(())
    }

    /// Removes all highlighters of a scope.
    pub fn clear(&mut self, scope: Scope)
        ensures { self.new ≡ without_scopes (λ s. is_same_scope s scope) self.old }
    {
        self.rows.retain(|row| !is_same_scope(row.scope, scope));
    }

    /// Removes all highlighters of the windows of a client, which is gone.
    pub fn clear_client(&mut self, client: u32)
        ensures { self.new ≡ without_scopes (is_of_client client) self.old }
    {
        self.rows.retain(|row| !is_of_client(row.scope, client));
    }

    /// Removes all highlighters of a buffer, and of the windows on it, which is gone.
    pub fn clear_buffer(&mut self, buffer: u32)
        ensures { self.new ≡ without_scopes (is_of_buffer buffer) self.old }
    {
        self.rows.retain(|row| !is_of_buffer(row.scope, buffer));
    }
}

impl<P: Pattern> Highlighters<P> {
    // Puts a highlighter in place of that of its path and scope, or at the end.
    fn put(&mut self, row: HighlighterRow<P>) -> Result<(), AllocError>
        ensures ok { OnOk result (self.new ≡ put_where (is_highlighter row.scope row.path) row self.old) }
        ensures err { OnErr result (self.new ≡ self.old) }
    {
        let at = highlighter_place(self.rows.as_slice(), row.scope, row.path.as_str());
        if at < self.rows.len() {
            self.rows[at] = row;
            return Ok(());
        }
        self.rows.push(row)?;
        Ok(())
    }

    // Removes the highlighters below a path at a scope.
    fn drop_below(&mut self, scope: Scope, path: &str)
        ensures { self.new ≡ without_below scope path.now self.old }
    {
        self.rows
            .retain(|row| !is_below_highlighter(row, scope, path));
    }
}
