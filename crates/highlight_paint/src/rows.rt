//! Highlighters as they are held.

ghost use Rattle.std.specs.Prelude.{◌≡◌, ◌&&◌};
ghost use Rattle.std.specs.List.{list_any};
ghost use Rattle.tables.specs.Tables.{place_where};
ghost use Rattle.scope_options.specs.Scopes.{is_same_scope};
ghost use Rattle.highlight_paint.specs.Painters.{paints_of, is_holder, is_of_scope};
ghost use Rattle.highlight_paint.specs.Highlighters.{is_highlighter, is_held, is_below_highlighter, is_parent_of, has_parent};

use crate::painter::Painter;
use crate::paths::{has_slash, is_below, is_child};
use crate::scopes::is_same_scope;
use byte_texts::Utf8Text;
use regex_ports::Pattern;
use scope_options::Scope;
use std::marker::Model;

/// A highlighter that is held. Contracts see its pattern by the text that it was made of.
#[derive(Drop)]
pub(crate) struct HighlighterRow<P: Pattern> {
    pub(crate) scope: Scope,
    pub(crate) path: Utf8Text,
    pub(crate) painter: Painter<P>,
}

impl<P: Pattern> Model for HighlighterRow<P> {
    ghost use Rattle.highlight_paint.specs.Painters.{Highlighter, paints_of};

    ghost Value = { Highlighter };

    ghost view = { λ r. record { scope = r.scope; path = r.path; paints = paints_of P.source r.painter } };
}

// Whether a painter is there to have others below it.
fn is_holder<P: Pattern>(painter: &Painter<P>) -> bool
    ensures { result ≡ is_holder (paints_of P.source painter.now) }
{
    match painter {
        Painter::Group => true,
        _ => false,
    }
}

/// Whether a highlighter is of a scope.
pub(crate) fn is_of_scope<P: Pattern>(row: &HighlighterRow<P>, scope: Scope) -> bool
    ensures { result ≡ is_of_scope scope row.now }
{
    is_same_scope(row.scope, scope)
}

/// Whether a highlighter is that of a path at a scope.
pub(crate) fn is_highlighter<P: Pattern>(row: &HighlighterRow<P>, scope: Scope, path: &str) -> bool
    ensures { result ≡ is_highlighter scope path.now row.now }
{
    is_same_scope(row.scope, scope) && row.path.as_str() == path
}

/// Whether a highlighter stands below a path at a scope.
pub(crate) fn is_below_highlighter<P: Pattern>(
    row: &HighlighterRow<P>,
    scope: Scope,
    path: &str,
) -> bool
    ensures { result ≡ is_below_highlighter scope path.now row.now }
{
    is_same_scope(row.scope, scope) && is_below(path.as_bytes(), row.path.as_str().as_bytes())
}

// Whether a highlighter is a group right below which a path stands.
fn is_parent_of<P: Pattern>(row: &HighlighterRow<P>, scope: Scope, path: &str) -> bool
    ensures { result ≡ is_parent_of scope path.now row.now }
{
    is_same_scope(row.scope, scope)
        && is_holder(&row.painter)
        && is_child(row.path.as_str().as_bytes(), path.as_bytes())
}

/// Whether there is a highlighter of a path at a scope.
pub(crate) fn is_held<P: Pattern>(rows: &[HighlighterRow<P>], scope: Scope, path: &str) -> bool
    ensures { result ≡ is_held scope path.now rows.now }
{
    for row in rows {
        if is_highlighter(row, scope, path) {
            return true;
        }
    }
    false
}

// Whether there is a group right below which a path stands.
fn has_group<P: Pattern>(rows: &[HighlighterRow<P>], scope: Scope, path: &str) -> bool
    ensures { result ≡ list_any (is_parent_of scope path.now) rows.now }
{
    for row in rows {
        if is_parent_of(row, scope, path) {
            return true;
        }
    }
    false
}

/// Whether a path has one name, or stands right below a group.
pub(crate) fn has_parent<P: Pattern>(rows: &[HighlighterRow<P>], scope: Scope, path: &str) -> bool
    ensures { result ≡ has_parent scope path.now rows.now }
{
    !has_slash(path.as_bytes(), 0) || has_group(rows, scope, path)
}

/// The place of the highlighter of a path at a scope, or how many there are where none is.
pub(crate) fn highlighter_place<P: Pattern>(
    rows: &[HighlighterRow<P>],
    scope: Scope,
    path: &str,
) -> usize
    ensures { result ≡ place_where (is_highlighter scope path.now) rows.now }
{
    for (i, row) in rows.iter().enumerate() {
        if is_highlighter(row, scope, path) {
            return i;
        }
    }
    rows.len()
}
