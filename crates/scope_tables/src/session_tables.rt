//! The tables of a session.

ghost use Rattle.std.specs.Prelude.{◌≡◌, true, false, IfOk, IfErr, OnOk, OnErr};
ghost use Rattle.std.specs.Option.{option_copied};
ghost use Rattle.scope_options.specs.Scopes.{is_same_scope, is_of_client, is_of_buffer};
ghost use Rattle.scope_tables.specs.declared.session_tables.TableError.TheVariants.{NoMemory};
ghost use Rattle.scope_tables.specs.Hooks.{is_scope_full, hooks_for, hook_at, without_hook, without_once, without_group, is_any, is_awaited};
ghost use Rattle.scope_tables.specs.Maps.{keys_for, with_map, without_map};
ghost use Rattle.scope_tables.specs.Aliases.{command_for, with_alias, without_alias};
ghost use Rattle.scope_tables.specs.Definitions.{definition_of, with_definition};
ghost use Rattle.scope_tables.specs.Rows.{no_table_rows, with_hook, without_scopes};
ghost use Rattle.scope_tables.specs.Gone.{is_gone};
ghost use Rattle.scope_tables.specs.Refusals.{IsTableRefusal};

use crate::aliases::{Alias, alias_place, command_at, is_alias};
use crate::definitions::{Definition, ParameterCount, definition_of, definition_place};
use crate::hooks::{
    HeldHook, HookRef, HookRow, MAX_SCOPE_HOOKS, count_at, hear, hook_at, is_awaited, is_grouped,
    is_once, is_ref,
};
use crate::maps::{KeyMap, Mode, is_map, keys_at, map_place};
use crate::names::HookName;
use crate::scopes::{Gone, is_gone};
use byte_texts::Utf8Text;
use key_names::{Key, Keys};
use regex_ports::Pattern;
use scope_options::Scope;
use std::alloc::{AllocError, Global};
use std::marker::Model;

/// Why a hook isn't added.
#[derive(Clone, Copy, PartialEq, Eq, Debug)]
pub enum TableError {
    /// The scope has `MAX_SCOPE_HOOKS` hooks, or as many hooks were added as can be counted.
    TableFull,
    /// Memory ran out.
    NoMemory,
}

impl From<AllocError> for TableError {
    ghost from_gives = { λ _ e. e ≡ NoMemory };

    fn from(_error: AllocError) -> TableError {
        TableError::NoMemory
    }
}

/// All hooks, key maps, aliases and defined commands. Contracts see the rows of each table, in the order in which they
/// were first added, and how many hooks were ever added.
#[derive(Drop)]
pub struct Tables<P: Pattern> {
    hooks: Vec<HeldHook<P>>,
    added: u64,
    maps: Vec<KeyMap>,
    aliases: Vec<Alias>,
    definitions: Vec<Definition>,
}

impl<P: Pattern> Model for Tables<P> {
    ghost use Rattle.scope_tables.specs.Rows.{TableRows};

    ghost Value = { TableRows };

    ghost view = { λ t. record { hooks = t.hooks.items; added = t.added; maps = t.maps.items; aliases = t.aliases.items; definitions = t.definitions.items } };
}

impl<P: Pattern> Tables<P> {
    /// Tables without a row; takes no memory.
    pub fn new(alloc: Global) -> Tables<P>
        ensures { result ≡ no_table_rows }
    {
        Tables {
            hooks: Vec::new(alloc),
            added: 0,
            maps: Vec::new(alloc),
            aliases: Vec::new(alloc),
            definitions: Vec::new(alloc),
        }
    }

    /// Adds a hook at a scope, behind all that were added before. The errors are `TableFull`, exactly where the scope has
    /// `MAX_SCOPE_HOOKS` hooks or 2^64 - 1 were ever added, and, where it hasn't and they weren't, `NoMemory`. They leave
    /// all as it was.
    pub fn add_hook(&mut self, scope: Scope, row: HookRow<P>) -> Result<(), TableError>
        ensures adds { OnOk result (self.new ≡ with_hook scope row self.old) }
        ensures granted { OnOk result (is_scope_full scope self.old.hooks self.old.added ≡ false) }
        ensures refused { IfErr result (λ e. IsTableRefusal e (is_scope_full scope self.old.hooks self.old.added)) }
        ensures err { OnErr result (self.new ≡ self.old) }
    {
        if self.is_scope_full(scope) {
            return Err(TableError::TableFull);
        }
        let number = self.added;
        self.hooks
            .push(HeldHook { scope, number, row })
            .map_err(AllocError::from)?;
        self.added = number + 1;
        Ok(())
    }

    /// Removes the hooks of a group at a scope. The empty group is that of the hooks that were given none.
    pub fn remove_hooks(&mut self, scope: Scope, group: &str)
        ensures { self.new ≡ record self.old { hooks = without_group scope group.now self.old.hooks } }
    {
        self.hooks.retain(|held| !is_grouped(held, scope, group));
    }

    /// Whether there is any hook.
    pub fn has_hooks(&self) -> bool
        ensures { result ≡ is_any self.now.hooks }
    {
        !self.hooks.is_empty()
    }

    /// Whether there is a hook of a name, at whatever scope.
    pub fn has_hook(&self, name: HookName) -> bool
        ensures { result ≡ is_awaited name self.now.hooks }
    {
        is_awaited(self.hooks.as_slice(), name)
    }

    /// The hooks that are run on an event, for a client in a buffer: those of its name where one of the pattern's matches
    /// in the parameter is the whole of it. The global ones come first, then those of the buffer, then those of the
    /// window, each in the order in which they were added.
    pub fn hooks_for(
        &self,
        alloc: Global,
        buffer: u32,
        client: u32,
        name: HookName,
        parameter: &str,
    ) -> Result<Vec<HookRef>, AllocError>
        ensures { IfOk result (λ found. found.items ≡ hooks_for buffer client name parameter.now self.now.hooks) }
    {
        let hooks = self.hooks.as_slice();
        let outer = Scope::Buffer(buffer);
        let own = Scope::Window(client, buffer);
        let mut found = Vec::new(alloc);
        hear(alloc, hooks, Scope::Global, name, parameter, &mut found)?;
        hear(alloc, hooks, outer, name, parameter, &mut found)?;
        hear(alloc, hooks, own, name, parameter, &mut found)?;
        Ok(found)
    }

    /// The hook of a scope and a number. None exactly where it isn't held, or not any more.
    pub fn hook(&self, at: HookRef) -> Option<&HookRow<P>>
        ensures { option_copied result ≡ hook_at at self.now.hooks }
    {
        hook_at(self.hooks.as_slice(), at)
    }

    /// Removes the hook of a scope and a number.
    pub fn drop_hook(&mut self, at: HookRef)
        ensures { self.new ≡ record self.old { hooks = without_hook at self.old.hooks } }
    {
        self.hooks.retain(|held| !is_ref(held, at));
    }

    /// Removes the hook of a scope and a number where it is run once, as it is when it begins.
    pub fn drop_once(&mut self, at: HookRef)
        ensures { self.new ≡ record self.old { hooks = without_once at self.old.hooks } }
    {
        self.hooks.retain(|held| !is_once(held, at));
    }

    /// Removes all rows of a scope. Defined commands have none.
    pub fn clear(&mut self, scope: Scope)
        ensures { self.new ≡ without_scopes (λ s. is_same_scope s scope) self.old }
    {
        self.clear_gone(Gone::At(scope));
    }

    /// Removes all rows of the windows of a client, which is gone.
    pub fn clear_client(&mut self, client: u32)
        ensures { self.new ≡ without_scopes (is_of_client client) self.old }
    {
        self.clear_gone(Gone::OfClient(client));
    }

    /// Removes all rows of a buffer, and of the windows on it, which is gone.
    pub fn clear_buffer(&mut self, buffer: u32)
        ensures { self.new ≡ without_scopes (is_of_buffer buffer) self.old }
    {
        self.clear_gone(Gone::OfBuffer(buffer));
    }
}

impl<P: Pattern> Tables<P> {
    /// Has a key stand for these keys in a mode, at a scope. An `Err` leaves all as it was.
    pub fn map_key(
        &mut self,
        alloc: Global,
        scope: Scope,
        mode: Mode,
        key: Key,
        keys: &[Key],
    ) -> Result<(), AllocError>
        ensures maps { OnOk result (self.new ≡ record self.old { maps = with_map scope mode key keys.now self.old.maps }) }
        ensures err { OnErr result (self.new ≡ self.old) }
    {
        let keys = Keys::of_vec(Vec::from_slice(alloc, keys)?);
        self.put_map(KeyMap {
            scope,
            mode,
            key,
            keys,
        })
    }

    /// Has a key stand for itself in a mode, at a scope.
    pub fn unmap_key(&mut self, scope: Scope, mode: Mode, key: Key)
        ensures { self.new ≡ record self.old { maps = without_map scope mode key self.old.maps } }
    {
        self.maps.retain(|map| !is_map(map, scope, mode, key));
    }

    /// The keys that a key stands for in a mode, for a client in a buffer: those that are set at the window, else at the
    /// buffer, else globally. None exactly where none are.
    pub fn mapped(&self, buffer: u32, client: u32, mode: Mode, key: Key) -> Option<&[Key]>
        ensures { option_copied result ≡ keys_for buffer client mode key self.now.maps }
    {
        let maps = self.maps.as_slice();
        let own = keys_at(maps, Scope::Window(client, buffer), mode, key);
        if own.is_some() {
            return own;
        }
        let outer = keys_at(maps, Scope::Buffer(buffer), mode, key);
        if outer.is_some() {
            return outer;
        }
        keys_at(maps, Scope::Global, mode, key)
    }

    /// Has a word stand for a command, at a scope. An `Err` leaves all as it was.
    pub fn set_alias(
        &mut self,
        alloc: Global,
        scope: Scope,
        word: &str,
        command: &str,
    ) -> Result<(), AllocError>
        ensures sets { OnOk result (self.new ≡ record self.old { aliases = with_alias scope word.now command.now self.old.aliases }) }
        ensures err { OnErr result (self.new ≡ self.old) }
    {
        let word = Utf8Text::from_str(alloc, word)?;
        let command = Utf8Text::from_str(alloc, command)?;
        self.put_alias(Alias {
            scope,
            word,
            command,
        })
    }

    /// Has a word stand for itself, at a scope.
    pub fn unset_alias(&mut self, scope: Scope, word: &str)
        ensures { self.new ≡ record self.old { aliases = without_alias scope word.now self.old.aliases } }
    {
        self.aliases.retain(|alias| !is_alias(alias, scope, word));
    }

    /// The command that a word stands for, for a client in a buffer: that which is set at the window, else at the buffer,
    /// else globally. None exactly where none is.
    pub fn alias(&self, buffer: u32, client: u32, word: &str) -> Option<&str>
        ensures { option_copied result ≡ command_for buffer client word.now self.now.aliases }
    {
        let aliases = self.aliases.as_slice();
        let own = command_at(aliases, Scope::Window(client, buffer), word);
        if own.is_some() {
            return own;
        }
        let outer = command_at(aliases, Scope::Buffer(buffer), word);
        if outer.is_some() {
            return outer;
        }
        command_at(aliases, Scope::Global, word)
    }

    /// Defines a command, in place of what its name was defined as before. An `Err` leaves all as it was.
    pub fn define(
        &mut self,
        alloc: Global,
        name: &str,
        allowed: ParameterCount,
        commands: &str,
    ) -> Result<(), AllocError>
        ensures defines { OnOk result (self.new ≡ record self.old { definitions = with_definition name.now allowed commands.now self.old.definitions }) }
        ensures err { OnErr result (self.new ≡ self.old) }
    {
        let name = Utf8Text::from_str(alloc, name)?;
        let commands = Utf8Text::from_str(alloc, commands)?;
        self.put_definition(Definition {
            name,
            allowed,
            commands,
        })
    }

    /// What a name is defined as. None exactly where it isn't.
    pub fn defined(&self, name: &str) -> Option<&Definition>
        ensures { option_copied result ≡ definition_of name.now self.now.definitions }
    {
        definition_of(self.definitions.as_slice(), name)
    }
}

impl<P: Pattern> Tables<P> {
    // Whether no hook may be added at a scope.
    fn is_scope_full(&self, scope: Scope) -> bool
        ensures { result ≡ is_scope_full scope self.now.hooks self.now.added }
    {
        count_at(self.hooks.as_slice(), scope) >= MAX_SCOPE_HOOKS || self.added == u64::MAX
    }

    // Removes all rows of the scopes that go.
    fn clear_gone(&mut self, gone: Gone)
        ensures { self.new ≡ without_scopes (is_gone gone) self.old }
    {
        self.hooks.retain(|held| !is_gone(held.scope, gone));
        self.maps.retain(|map| !is_gone(map.scope, gone));
        self.aliases.retain(|alias| !is_gone(alias.scope, gone));
    }

    // Puts a map in place of that of its key, mode and scope, or at the end.
    fn put_map(&mut self, map: KeyMap) -> Result<(), AllocError>
        ensures ok { OnOk result (self.new ≡ record self.old { maps = with_map map.scope map.mode map.key map.keys self.old.maps }) }
        ensures err { OnErr result (self.new ≡ self.old) }
    {
        let at = map_place(self.maps.as_slice(), map.scope, map.mode, map.key);
        if at < self.maps.len() {
            self.maps[at] = map;
            return Ok(());
        }
        self.maps.push(map)?;
        Ok(())
    }

    // Puts an alias in place of that of its word and scope, or at the end.
    fn put_alias(&mut self, alias: Alias) -> Result<(), AllocError>
        ensures ok { OnOk result (self.new ≡ record self.old { aliases = with_alias alias.scope alias.word alias.command self.old.aliases }) }
        ensures err { OnErr result (self.new ≡ self.old) }
    {
        let at = alias_place(self.aliases.as_slice(), alias.scope, alias.word.as_str());
        if at < self.aliases.len() {
            self.aliases[at] = alias;
            return Ok(());
        }
        self.aliases.push(alias)?;
        Ok(())
    }

    // Puts a definition in place of that of its name, or at the end.
    fn put_definition(&mut self, row: Definition) -> Result<(), AllocError>
        ensures ok { OnOk result (self.new ≡ record self.old { definitions = with_definition row.name row.allowed row.commands self.old.definitions }) }
        ensures err { OnErr result (self.new ≡ self.old) }
    {
        let at = definition_place(self.definitions.as_slice(), row.name.as_str());
        if at < self.definitions.len() {
            self.definitions[at] = row;
            return Ok(());
        }
        self.definitions.push(row)?;
        Ok(())
    }
}
