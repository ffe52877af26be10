//! What faces that lie one over another make of a face below them: kept without the faces, so that a row of any length is
//! merged from its near end, and takes neither memory nor a call for each face.

ghost use Rattle.std.specs.Prelude.{◌≡◌};
ghost use Rattle.kak_faces.specs.Colours.{is_default};
ghost use Rattle.kak_faces.specs.Standard.{default_face};
ghost use Rattle.face_texts.specs.Covers.{seen_through, lowered, attributes_lowered, no_cover, cover_on, face_through};

use kak_faces::{Attributes, Colour, Face, NamedColour};

// What is known of a colour, before the faces below are known.
#[derive(Clone, Copy, Debug)]
pub(crate) enum Choice {
    // that of the face below
    Clear,
    // this one, unless the colour below is final
    Loose(Colour),
    // the second, unless the attributes below are final and the colour isn't
    Firm(Colour, Colour),
    // this one
    Settled(Colour),
}

// Whether a colour leaves the choice to what lies below.
fn is_default(colour: Colour) -> bool
    ensures { result ≡ is_default colour }
{
    match colour {
        Colour::Named(NamedColour::Default) => true,
        _ => false,
    }
}

impl Choice {
    // The choice where one more face lies below.
    fn lowered(self, colour: Colour, is_kept: bool, is_final: bool) -> Choice
        ensures { result ≡ lowered self colour is_kept is_final }
    {
        match (self, is_kept, is_final) {
            (Choice::Clear, _, true) => Choice::Settled(colour),
            (Choice::Clear, _, false) => {
                if is_default(colour) {
                    return Choice::Clear;
                }
                Choice::Loose(colour)
            }
            (Choice::Loose(_), true, true) => Choice::Settled(colour),
            (Choice::Loose(loose), true, false) => Choice::Settled(loose),
            (Choice::Loose(loose), false, true) => Choice::Firm(loose, colour),
            (Choice::Loose(loose), false, false) => Choice::Loose(loose),
            (Choice::Firm(_, firm), true, true) => Choice::Settled(firm),
            (Choice::Firm(loose, _), true, false) => Choice::Settled(loose),
            (Choice::Firm(loose, firm), false, _) => Choice::Firm(loose, firm),
            (Choice::Settled(settled), _, _) => Choice::Settled(settled),
        }
    }

    // The colour where the default face lies below.
    fn shown(self) -> Colour
        ensures { result ≡ seen_through self default_face.fg default_face.attributes.final_attr default_face.attributes.final_fg }
    {
        match self {
            Choice::Clear => Colour::Named(NamedColour::Default),
            Choice::Loose(colour) | Choice::Firm(_, colour) | Choice::Settled(colour) => colour,
        }
    }
}

/// What faces that lie one over another make of a face below them.
#[derive(Clone, Copy, Debug)]
pub(crate) struct Cover {
    pub fg: Choice,
    pub bg: Choice,
    pub underline: Choice,
    // those of the faces so far, which nothing below changes once they are settled
    pub attributes: Attributes,
    pub is_settled: bool,
}

impl Cover {
    /// No face at all.
    pub(crate) fn new() -> Cover
        ensures { result ≡ no_cover }
    {
        Cover {
            fg: Choice::Clear,
            bg: Choice::Clear,
            underline: Choice::Clear,
            attributes: Attributes::NONE,
            is_settled: false,
        }
    }

    // The attributes where one more face lies below.
    fn attributes_on(self, more: Attributes) -> Attributes
        ensures { result ≡ attributes_lowered self.is_settled self.attributes more }
    {
        if self.is_settled {
            return self.attributes;
        }
        if more.final_attr {
            return more;
        }
        more.union(self.attributes)
    }

    /// The cover where one more face lies below.
    pub(crate) fn on(self, face: Face) -> Cover
        ensures { result ≡ cover_on self face }
    {
        let more = face.attributes;
        Cover {
            fg: self.fg.lowered(face.fg, more.final_attr, more.final_fg),
            bg: self.bg.lowered(face.bg, more.final_attr, more.final_bg),
            underline: self.underline.lowered(face.underline, false, false),
            attributes: self.attributes_on(more),
            is_settled: self.is_settled | more.final_attr,
        }
    }

    /// The face where the default one lies below.
    pub(crate) fn shown(self) -> Face
        ensures { result ≡ face_through self default_face }
    {
        Face {
            fg: self.fg.shown(),
            bg: self.bg.shown(),
            underline: self.underline.shown(),
            attributes: self.attributes,
        }
    }
}
