//! Hooks, as they are given and as they are held.

ghost use Rattle.std.specs.Prelude.{◌≡◌, ◌++◌, ◌&&◌, count_by, IfOk, OnOk};
ghost use Rattle.std.specs.Option.{option_copied};
ghost use Rattle.scope_options.specs.Scopes.{is_same_scope};
ghost use Rattle.scope_tables.specs.Names.{is_same_name};
ghost use Rattle.scope_tables.specs.Hooks.{is_heard, heard_at, is_ref, ref_of, is_grouped, is_awaited, hook_at};

use crate::names::{HookName, is_same_name};
use crate::scopes::is_same_scope;
use crate::whole::is_whole;
use byte_texts::Utf8Text;
use regex_ports::Pattern;
use scope_options::Scope;
use std::alloc::{AllocError, Global};
use std::marker::Model;

/// How many hooks a scope may have.
pub const MAX_SCOPE_HOOKS: usize = 1_000;

/// A hook. Contracts see its pattern by the text that it was made of.
#[derive(Drop)]
pub struct HookRow<P: Pattern> {
    /// What it is run on.
    pub name: HookName,
    /// It is run where one of the pattern's matches in the parameter is the whole parameter.
    pub pattern: P,
    /// The group by which it may be removed; empty where it was given none.
    pub group: Utf8Text,
    /// Whether it is removed before it is run.
    pub once: bool,
    /// What it runs.
    pub commands: Utf8Text,
}

impl<P: Pattern> Model for HookRow<P> {
    ghost use Rattle.scope_tables.specs.Hooks.{Hook};

    ghost Value = { Hook };

    ghost view = { λ r. record { name = r.name; pattern = P.source r.pattern; group = r.group; once = r.once; commands = r.commands } };
}

/// What a hook that is held is found by: its scope, and how many hooks had ever been added before it.
#[derive(Clone, Copy, PartialEq, Eq, Debug)]
pub struct HookRef {
    pub scope: Scope,
    pub number: u64,
}

/// A hook that is held, with what it is found by.
#[derive(Drop)]
pub(crate) struct HeldHook<P: Pattern> {
    pub(crate) scope: Scope,
    pub(crate) number: u64,
    pub(crate) row: HookRow<P>,
}

impl<P: Pattern> Model for HeldHook<P> {
    ghost use Rattle.scope_tables.specs.Hooks.{NumberedHook};

    ghost Value = { NumberedHook };

    ghost view = { λ h. record { scope = h.scope; number = h.number; hook = h.row } };
}

/// Whether a hook is of a scope.
pub(crate) fn is_of_scope<P: Pattern>(held: &HeldHook<P>, scope: Scope) -> bool
    ensures { result ≡ is_same_scope held.now.scope scope }
{
    is_same_scope(held.scope, scope)
}

/// How many hooks a scope has.
pub(crate) fn count_at<P: Pattern>(hooks: &[HeldHook<P>], scope: Scope) -> usize
    ensures { result ≡ count_by (λ h. is_same_scope h.scope scope) hooks.now }
{
    hooks.iter().filter(|h| is_of_scope(h, scope)).count()
}

/// Whether a hook is the one of a scope and a number.
pub(crate) fn is_ref<P: Pattern>(held: &HeldHook<P>, at: HookRef) -> bool
    ensures { result ≡ is_ref at held.now }
{
    is_same_scope(held.scope, at.scope) && held.number == at.number
}

/// Whether a hook is the one of a scope and a number, and is run once.
pub(crate) fn is_once<P: Pattern>(held: &HeldHook<P>, at: HookRef) -> bool
    ensures { result ≡ (is_ref at held.now && held.now.hook.once) }
{
    let row = &held.row;
    is_ref(held, at) && row.once
}

/// Whether a hook is of a group at a scope.
pub(crate) fn is_grouped<P: Pattern>(held: &HeldHook<P>, scope: Scope, group: &str) -> bool
    ensures { result ≡ is_grouped scope group.now held.now }
{
    let row = &held.row;
    is_same_scope(held.scope, scope) && row.group.as_str() == group
}

// Whether a hook has a name.
fn is_named<P: Pattern>(row: &HookRow<P>, name: HookName) -> bool
    ensures { result ≡ is_same_name row.now.name name }
{
    is_same_name(row.name, name)
}

/// Whether a hook of a name is among some.
pub(crate) fn is_awaited<P: Pattern>(hooks: &[HeldHook<P>], name: HookName) -> bool
    ensures { result ≡ is_awaited name hooks.now }
{
    for held in hooks {
        if is_named(&held.row, name) {
            return true;
        }
    }
    false
}

/// The hook of a scope and a number.
pub(crate) fn hook_at<P: Pattern>(hooks: &[HeldHook<P>], at: HookRef) -> Option<&HookRow<P>>
    ensures { option_copied result ≡ hook_at at hooks.now }
{
    for held in hooks {
        if is_ref(held, at) {
            return Some(&held.row);
        }
    }
    None
}

// Whether a hook is run on an event.
fn is_heard<P: Pattern>(
    alloc: Global,
    row: &HookRow<P>,
    name: HookName,
    parameter: &str,
) -> Result<bool, AllocError>
    ensures { IfOk result (λ heard. heard ≡ is_heard name parameter.now row.now) }
{
    if !is_same_name(row.name, name) {
        return Ok(false);
    }
    is_whole(alloc, &row.pattern, parameter)
}

// Whether a hook is of a scope, and is run on an event.
fn is_heard_at<P: Pattern>(
    alloc: Global,
    held: &HeldHook<P>,
    scope: Scope,
    name: HookName,
    parameter: &str,
) -> Result<bool, AllocError>
    ensures { IfOk result (λ heard. heard ≡ (is_same_scope held.now.scope scope && is_heard name parameter.now held.now.hook)) }
{
    if !is_same_scope(held.scope, scope) {
        return Ok(false);
    }
    is_heard(alloc, &held.row, name, parameter)
}

// What a hook is found by.
fn ref_of<P: Pattern>(held: &HeldHook<P>) -> HookRef
    ensures { result ≡ ref_of held.now }
{
    HookRef {
        scope: held.scope,
        number: held.number,
    }
}

/// Puts the hooks of a scope that are run on an event behind those that were found before.
pub(crate) fn hear<P: Pattern>(
    alloc: Global,
    hooks: &[HeldHook<P>],
    scope: Scope,
    name: HookName,
    parameter: &str,
    found: &mut Vec<HookRef>,
) -> Result<(), AllocError>
    ensures { OnOk result (found.new.items ≡ found.old.items ++ heard_at name parameter.now hooks.now scope) }
{
    for held in hooks {
        if !is_heard_at(alloc, held, scope, name, parameter)? {
            continue;
        }
        found.push(ref_of(held))?;
    }
    Ok(())
}
