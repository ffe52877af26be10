//! How many parameters a command that is defined may be given.

ghost use Rattle.std.specs.Prelude.{◌≡◌};
ghost use Rattle.command_forms.specs.Parameters.{least_of, most_of, allowed_between, allowed_of};
ghost use Rattle.command_forms.specs.TableOrders.{allowed_given};

use crate::numbers::whole_number;
use crate::parting::parted;
use crate::switches::{Given, Switch, word_given};

/// How many parameters a command may be given: none below `least`, and none above `most`.
#[derive(Clone, Copy, PartialEq, Eq, Debug)]
pub struct Allowed {
    pub least: u32,
    pub most: u32,
}

// The least number of a range, by what stands before its dots.
fn least_of(text: &[u8]) -> Option<u32>
    ensures { result ≡ least_of text.now }
{
    if text.is_empty() {
        return Some(0);
    }
    whole_number(text)
}

// The greatest number of a range, by what stands behind its first dot.
fn most_of(text: &[u8]) -> Option<u32>
    ensures { result ≡ most_of text.now }
{
    match text {
        [b'.', digits @ ..] => whole_number(digits),
        _ => None,
    }
}

// The numbers from one to another.
fn allowed_between(text: &str) -> Option<Allowed>
    ensures { result ≡ allowed_between text.now }
{
    let (least, most) = parted(text, '.')?;
    Some(Allowed {
        least: least_of(least.as_bytes())?,
        most: most_of(most.as_bytes())?,
    })
}

/// The numbers of parameters that a word says: `n`, `a..b` or `..b`, in decimal digits. None where it says none.
pub(crate) fn allowed_of(word: &str) -> Option<Allowed>
    ensures { result ≡ allowed_of word.now }
{
    if let Some(n) = whole_number(word.as_bytes()) {
        return Some(Allowed { least: n, most: n });
    }
    allowed_between(word)
}

/// The numbers of parameters that switches say: no parameter where none does.
pub(crate) fn allowed_given(given: &[Given]) -> Allowed
    ensures { result ≡ allowed_given given.now }
{
    let said = match word_given(Switch::Params, given) {
        Some(word) => allowed_of(word.as_str()),
        None => None,
    };
    match said {
        Some(allowed) => allowed,
        None => Allowed { least: 0, most: 0 },
    }
}
