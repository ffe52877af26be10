//! Commands that were defined.

ghost use Rattle.std.specs.Prelude.{◌≡◌};
ghost use Rattle.std.specs.Option.{option_copied};
ghost use Rattle.tables.specs.Tables.{place_where};
ghost use Rattle.scope_tables.specs.Definitions.{is_allowed, is_definition_of, definition_of};

use byte_texts::Utf8Text;

/// How many parameters a command may be given: none below `least`, and none above `most`.
#[derive(Clone, Copy, PartialEq, Eq, Debug)]
pub struct ParameterCount {
    pub least: usize,
    pub most: usize,
}

impl ParameterCount {
    /// Whether so many parameters may be given.
    pub fn is_allowed(&self, count: usize) -> bool
        ensures { result ≡ is_allowed count self.now }
    {
        self.least <= count && count <= self.most
    }
}

/// A command that was defined: its name, how many parameters it may be given, and the commands that it runs.
#[derive(Drop, Debug)]
pub struct Definition {
    pub name: Utf8Text,
    pub allowed: ParameterCount,
    pub commands: Utf8Text,
}

/// Whether a definition is that of a name.
pub(crate) fn is_definition_of(definition: &Definition, name: &str) -> bool
    ensures { result ≡ is_definition_of name.now definition.now }
{
    definition.name.as_str() == name
}

/// The place of the definition of a name, or how many definitions there are where it has none.
pub(crate) fn definition_place(definitions: &[Definition], name: &str) -> usize
    ensures { result ≡ place_where (is_definition_of name.now) definitions.now }
{
    for (i, definition) in definitions.iter().enumerate() {
        if is_definition_of(definition, name) {
            return i;
        }
    }
    definitions.len()
}

/// What a name is defined as.
pub(crate) fn definition_of<'a>(definitions: &'a [Definition], name: &str) -> Option<&'a Definition>
    ensures { option_copied result ≡ definition_of name.now definitions.now }
{
    for definition in definitions {
        if is_definition_of(definition, name) {
            return Some(definition);
        }
    }
    None
}
