//! How the faces that are there from the start lie over one another.

use kak_faces::{Attributes, Colour, Face, NamedColour, StandardFace, merge};

#[test]
fn cursors_and_selections_lie_over_the_default_face(rt: HostRuntime) {
    let rows = [
        (StandardFace::PrimarySelection, "white", "blue"),
        (StandardFace::PrimaryCursor, "black", "white"),
        (StandardFace::PrimaryCursorEol, "black", "cyan"),
        (StandardFace::BufferPadding, "blue", "default"),
        (StandardFace::LineNumberCursor, "default", "default"),
    ];
    for (name, fg, bg) in rows {
        let face = merge(StandardFace::Default.face(), name.face());
        assert_eq!(rt; shown(face.fg), fg, "foreground of {name:?}");
        assert_eq!(rt; shown(face.bg), bg, "background of {name:?}");
    }
}

fn shown(colour: Colour) -> &'static str {
    match colour {
        Colour::Named(name) => name.name(),
        Colour::Rgb(_, _, _) => "mixed",
    }
}

#[test]
fn a_final_colour_below_stays(rt: HostRuntime) {
    let base = Face {
        fg: Colour::Rgb(1, 2, 3),
        attributes: Attributes {
            final_fg: true,
            ..Attributes::NONE
        },
        ..Face::DEFAULT
    };
    let face = merge(base, StandardFace::Error.face());
    assert_eq!(rt; face.fg, Colour::Rgb(1, 2, 3));
    assert_eq!(rt; face.bg, Colour::Named(NamedColour::Red));
}
