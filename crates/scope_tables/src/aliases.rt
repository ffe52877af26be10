//! Words that stand for commands.

ghost use Rattle.std.specs.Prelude.{◌≡◌};
ghost use Rattle.std.specs.Option.{option_copied};
ghost use Rattle.tables.specs.Tables.{place_where};
ghost use Rattle.scope_tables.specs.Aliases.{is_alias, command_at};

use crate::scopes::is_same_scope;
use byte_texts::Utf8Text;
use scope_options::Scope;

/// A word that stands for a command, at a scope.
#[derive(Drop, Debug)]
pub struct Alias {
    pub scope: Scope,
    pub word: Utf8Text,
    pub command: Utf8Text,
}

/// Whether an alias is that of a word at a scope.
pub(crate) fn is_alias(alias: &Alias, scope: Scope, word: &str) -> bool
    ensures { result ≡ is_alias scope word.now alias.now }
{
    is_same_scope(alias.scope, scope) && alias.word.as_str() == word
}

/// The place of the alias of a word, or how many aliases there are where it has none.
pub(crate) fn alias_place(aliases: &[Alias], scope: Scope, word: &str) -> usize
    ensures { result ≡ place_where (is_alias scope word.now) aliases.now }
{
    for (i, alias) in aliases.iter().enumerate() {
        if is_alias(alias, scope, word) {
            return i;
        }
    }
    aliases.len()
}

/// The command that a word stands for at a scope itself.
pub(crate) fn command_at<'a>(aliases: &'a [Alias], scope: Scope, word: &str) -> Option<&'a str>
    ensures { option_copied result ≡ command_at word.now aliases.now scope }
{
    for alias in aliases {
        if is_alias(alias, scope, word) {
            return Some(alias.command.as_str());
        }
    }
    None
}
