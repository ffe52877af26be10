//! What options are set to, and what counts for a client.
#![tactic(auto, unfolding(crate::specs::Flat::rest_of, crate::specs::Flat::with_rest))]

ghost use Rattle.std.specs.Prelude.{◌≡◌, ◌≤◌, Ok, Err, true, IfErr, OnOk, OnErr};
ghost use Rattle.scope_options.specs.Changes.{declare_in, option_set_in, option_unset_in, IsOptionErrorDue};
ghost use Rattle.kak_world.specs.Flat.{is_joined, options_of, with_options, tabstop_of, indentwidth_of};
ghost use Rattle.kak_world.specs.declared.options.TheConstants.{MAX_INDENT};

use crate::turn::Turn;
use crate::world::World;
use byte_texts::Words;
use kak_text::MAX_TABSTOP;
use regex_ports::Pattern;
use scope_options::{OptionError, OptionType, Options, Scope};
use std::alloc::Global;
use window_view::Tabstop;

/// The most columns that a line is indented by at once.
pub const MAX_INDENT: u32 = 64;

impl<P: Pattern, T: Turn> World<P, T> {
    /// What options are set to.
    pub fn options(&self) -> &Options
        ensures { result.now ≡ options_of self.now.flat }
    {
        &self.rest.options
    }

    /// The tab stops where a client looks: its option `tabstop`.
    #[tactic(auto, unfolding(crate::specs::Flat::tabstop_of), using(crate::proofs::WorldLaws::world_laws))]
    pub fn tabstop(&self, who: u32) -> Tabstop
        requires { is_joined who self.now.flat ≡ true }
        ensures value { result.columns ≡ tabstop_of who self.now.flat }
    {
        let window = Scope::Window(who, self.shown_number(who));
        let columns = self
            .options()
            .number_seen(window, "tabstop", 1, MAX_TABSTOP, 8);
        Tabstop { columns }
    }

    /// By how many columns a line is indented where a client looks: its option `indentwidth`.
    #[tactic(auto, unfolding(crate::specs::Flat::indentwidth_of), using(crate::proofs::WorldLaws::world_laws))]
    pub fn indentwidth(&self, who: u32) -> u32
        requires { is_joined who self.now.flat ≡ true }
        ensures value { result ≡ indentwidth_of who self.now.flat }
        ensures few { result ≤ MAX_INDENT }
    {
        let window = Scope::Window(who, self.shown_number(who));
        self.options()
            .number_seen(window, "indentwidth", 0, MAX_INDENT, 4)
    }

    /// Declares an option of a type, with a value that words give; one that exists with this type keeps its value. It is
    /// refused as `Options::declare` is; an error leaves the world.
    pub fn declare_option(
        &mut self,
        alloc: Global,
        kind: OptionType,
        name: &str,
        value: &Words,
    ) -> Result<(), OptionError>
        ensures declares { OnOk result (declare_in kind name.now value.now (options_of self.old.flat) ≡ Ok (options_of self.new.flat)) }
        ensures rest { self.new.flat ≡ with_options (options_of self.new.flat) self.old.flat }
        ensures refused { IfErr result (λ e. IsOptionErrorDue e (declare_in kind name.now value.now (options_of self.old.flat))) }
        ensures err { OnErr result (self.new.flat ≡ self.old.flat) }
    {
        self.rest.options.declare(alloc, kind, name, value)
    }

    /// Sets an option at a scope to a value that words give, or adds that to what is seen from there. It is refused as
    /// `Options::set` is; an error leaves the world.
    pub fn set_option(
        &mut self,
        alloc: Global,
        scope: Scope,
        name: &str,
        value: &Words,
        add: bool,
    ) -> Result<(), OptionError>
        ensures sets { OnOk result (option_set_in scope name.now value.now add (options_of self.old.flat) ≡ Ok (options_of self.new.flat)) }
        ensures rest { self.new.flat ≡ with_options (options_of self.new.flat) self.old.flat }
        ensures refused { IfErr result (λ e. IsOptionErrorDue e (option_set_in scope name.now value.now add (options_of self.old.flat))) }
        ensures err { OnErr result (self.new.flat ≡ self.old.flat) }
    {
        self.rest.options.set(alloc, scope, name, value, add)
    }

    /// Takes away what an option is set to at a scope. It is refused as `Options::unset` is; an error leaves the world.
    pub fn unset_option(&mut self, scope: Scope, name: &str) -> Result<(), OptionError>
        ensures unsets { OnOk result (option_unset_in scope name.now (options_of self.old.flat) ≡ Ok (options_of self.new.flat)) }
        ensures rest { self.new.flat ≡ with_options (options_of self.new.flat) self.old.flat }
        ensures refused { IfErr result (λ e. option_unset_in scope name.now (options_of self.old.flat) ≡ Err e) }
        ensures err { OnErr result (self.new.flat ≡ self.old.flat) }
    {
        self.rest.options.unset(scope, name)
    }
}
