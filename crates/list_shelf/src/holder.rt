//! Whose a selection list is.

ghost use Rattle.std.specs.Prelude.{◌≡◌};

/// Whose a selection list on a text is. Whoever holds it, each change of the text moves it: a list that is no client's own
/// is one more case.
#[derive(Clone, Copy, Debug)]
pub enum Holder {
    /// A client, by its number in the history.
    Of(u32),
}

impl Holder {
    ghost use Rattle.list_shelf.specs.Shelves.{same_holder};

    /// Whether it is this holder.
    pub fn is(self, other: Holder) -> bool
        ensures { result ≡ same_holder self other }
    {
        match self {
            Holder::Of(who) => match other {
                Holder::Of(number) => number == who,
            },
        }
    }
}
