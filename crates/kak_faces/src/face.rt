//! Faces, and how one lies over another.

ghost use Rattle.std.specs.Prelude.{◌≡◌};
ghost use Rattle.kak_faces.specs.Faces.{merged, merged_colour, merged_attributes};

use crate::colour::{Attributes, Colour, NamedColour};

/// How a character is drawn: its colour, the colour behind it, that of its underline, and its
/// attributes.
#[derive(Clone, Copy, PartialEq, Eq, Debug)]
pub struct Face {
    pub fg: Colour,
    pub bg: Colour,
    pub underline: Colour,
    pub attributes: Attributes,
}

impl Face {
    /// All colours `default`, no attributes: what a face that isn't set counts as.
    pub const DEFAULT: Face = Face {
        fg: Colour::Named(NamedColour::Default),
        bg: Colour::Named(NamedColour::Default),
        underline: Colour::Named(NamedColour::Default),
        attributes: Attributes::NONE,
    };
}

impl Face {
    ghost use Rattle.kak_faces.specs.Same.{same_face};

    /// Whether this face and another are the same.
    pub fn is_same(self, other: Face) -> bool
        ensures { result ≡ same_face self other }
    {
        self.fg.is_same(other.fg)
            && self.bg.is_same(other.bg)
            && self.underline.is_same(other.underline)
            && self.attributes.is_same(other.attributes)
    }
}

// The colour that is seen where `over` lies over `base`, each with the word whether it is final.
fn merge_colour(base: Colour, base_final: bool, over: Colour, over_final: bool) -> Colour
    ensures { result ≡ merged_colour base base_final over over_final }
{
    if over_final {
        return over;
    }
    if base_final {
        return base;
    }
    match over {
        Colour::Named(NamedColour::Default) => base,
        _ => over,
    }
}

fn merge_attributes(base: Attributes, over: Attributes) -> Attributes
    ensures { result ≡ merged_attributes base over }
{
    if over.final_attr {
        return over;
    }
    if base.final_attr {
        return base;
    }
    base.union(over)
}

/// The face that is seen where `over` lies over `base`.
pub fn merge(base: Face, over: Face) -> Face
    ensures { result ≡ merged base over }
{
    Face {
        fg: merge_colour(
            base.fg,
            base.attributes.final_fg,
            over.fg,
            over.attributes.final_fg,
        ),
        bg: merge_colour(
            base.bg,
            base.attributes.final_bg,
            over.bg,
            over.attributes.final_bg,
        ),
        underline: merge_colour(base.underline, false, over.underline, false),
        attributes: merge_attributes(base.attributes, over.attributes),
    }
}
