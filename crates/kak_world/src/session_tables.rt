//! The hooks, key maps, aliases and defined commands.

ghost use Rattle.std.specs.Prelude.{◌≡◌, false, IfErr, OnOk, OnErr};
ghost use Rattle.scope_tables.specs.Hooks.{is_scope_full, without_group};
ghost use Rattle.scope_tables.specs.Maps.{with_map, without_map};
ghost use Rattle.scope_tables.specs.Aliases.{with_alias, without_alias};
ghost use Rattle.scope_tables.specs.Definitions.{with_definition};
ghost use Rattle.scope_tables.specs.Rows.{with_hook};
ghost use Rattle.scope_tables.specs.Refusals.{IsTableRefusal};
ghost use Rattle.kak_world.specs.Flat.{tables_of, with_tables};
ghost use Rattle.kak_world.specs.Scoping.{with_hooks, with_maps, with_aliases, with_definitions};

use crate::turn::Turn;
use crate::world::World;
use key_names::Key;
use regex_ports::Pattern;
use scope_options::Scope;
use scope_tables::{HookRow, Mode, ParameterCount, TableError, Tables};
use std::alloc::{AllocError, Global};

#[tactic(auto, unfolding(crate::specs::Flat::scoped_of, crate::specs::Flat::with_scoped))]
impl<P: Pattern, T: Turn> World<P, T> {
    /// The hooks, key maps, aliases and defined commands.
    pub fn tables(&self) -> &Tables<P>
        ensures { result.now ≡ tables_of self.now.flat }
    {
        &self.tables
    }

    /// Has a key stand for these keys in a mode, at a scope. An `Err` leaves the world.
    pub fn map_key(
        &mut self,
        alloc: Global,
        scope: Scope,
        mode: Mode,
        key: Key,
        keys: &[Key],
    ) -> Result<(), AllocError>
        ensures maps { OnOk result (self.new.flat ≡ with_maps (with_map scope mode key keys.now) self.old.flat) }
        ensures err { OnErr result (self.new.flat ≡ self.old.flat) }
    {
        self.tables.map_key(alloc, scope, mode, key, keys)
    }

    /// Has a key stand for itself in a mode, at a scope.
    pub fn unmap_key(&mut self, scope: Scope, mode: Mode, key: Key)
        ensures { self.new.flat ≡ with_maps (without_map scope mode key) self.old.flat }
    {
        self.tables.unmap_key(scope, mode, key);
    }

    /// Has a word stand for a command, at a scope. An `Err` leaves the world.
    pub fn set_alias(
        &mut self,
        alloc: Global,
        scope: Scope,
        word: &str,
        command: &str,
    ) -> Result<(), AllocError>
        ensures sets { OnOk result (self.new.flat ≡ with_aliases (with_alias scope word.now command.now) self.old.flat) }
        ensures err { OnErr result (self.new.flat ≡ self.old.flat) }
    {
        self.tables.set_alias(alloc, scope, word, command)
    }

    /// Has a word stand for itself, at a scope.
    pub fn unset_alias(&mut self, scope: Scope, word: &str)
        ensures { self.new.flat ≡ with_aliases (without_alias scope word.now) self.old.flat }
    {
        self.tables.unset_alias(scope, word);
    }

    /// Defines a command, in place of what its name was defined as before. An `Err` leaves the world.
    pub fn define(
        &mut self,
        alloc: Global,
        name: &str,
        allowed: ParameterCount,
        commands: &str,
    ) -> Result<(), AllocError>
        ensures defines { OnOk result (self.new.flat ≡ with_definitions (with_definition name.now allowed commands.now) self.old.flat) }
        ensures err { OnErr result (self.new.flat ≡ self.old.flat) }
    {
        self.tables.define(alloc, name, allowed, commands)
    }

    /// Adds a hook at a scope. It is refused as `Tables::add_hook` is; an error leaves the world.
    pub fn add_hook(&mut self, scope: Scope, row: HookRow<P>) -> Result<(), TableError>
        ensures adds { OnOk result (self.new.flat ≡ with_tables (with_hook scope row (tables_of self.old.flat)) self.old.flat) }
        ensures granted { OnOk result (is_scope_full scope (tables_of self.old.flat).hooks (tables_of self.old.flat).added ≡ false) }
        ensures refused { IfErr result (λ e. IsTableRefusal e (is_scope_full scope (tables_of self.old.flat).hooks (tables_of self.old.flat).added)) }
        ensures err { OnErr result (self.new.flat ≡ self.old.flat) }
    {
        self.tables.add_hook(scope, row)
    }

    /// Removes the hooks of a group at a scope. The empty group is that of the hooks that were given none.
    pub fn remove_hooks(&mut self, scope: Scope, group: &str)
        ensures { self.new.flat ≡ with_hooks (without_group scope group.now) self.old.flat }
    {
        self.tables.remove_hooks(scope, group);
    }
}
