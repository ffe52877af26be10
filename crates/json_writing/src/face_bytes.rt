//! Faces as JSON.

ghost use Rattle.std.specs.Prelude.{◌≡◌, ◌++◌, ◌∷◌, [], codes, map, filter, OnOk};
ghost use Rattle.kak_faces.specs.Colours.{attribute_name, has_attribute};
ghost use Rattle.json_writing.specs.Grows.{Grows};
ghost use Rattle.json_writing.specs.JsonText.{plain_string, separated};
ghost use Rattle.json_writing.specs.Drawings.{colour_text, attribute_texts, face_text};

use crate::text_bytes::{hex_digit, push_byte, push_bytes, push_comma, push_text};
use kak_faces::{Attribute, Attributes, Colour, Face};
use std::alloc::AllocError;

// Adds a colour: its name, or # and its red, green and blue.
fn push_colour(out: &mut Vec<u8>, colour: Colour) -> Result<(), AllocError>
    ensures ok { OnOk result (out.new.items ≡ out.old.items ++ colour_text colour) }
    ensures grows { Grows out.old.items out.new.items }
{
    match colour {
        Colour::Named(name) => push_text(out, name.name()),
        Colour::Rgb(red, green, blue) => push_bytes(
            out,
            &[
                b'#',
                hex_digit(red / 16),
                hex_digit(red % 16),
                hex_digit(green / 16),
                hex_digit(green % 16),
                hex_digit(blue / 16),
                hex_digit(blue % 16),
            ],
        ),
    }
}

// Adds a colour behind a text.
fn push_colour_behind(out: &mut Vec<u8>, before: &str, colour: Colour) -> Result<(), AllocError>
    ensures ok { OnOk result (out.new.items ≡ out.old.items ++ (before.now ++ colour_text colour)) }
    ensures grows { Grows out.old.items out.new.items }
{
    push_text(out, before)?;
    push_colour(out, colour)
}

// Adds the name of an attribute.
fn push_attribute(out: &mut Vec<u8>, attribute: Attribute) -> Result<(), AllocError>
    ensures ok { OnOk result (out.new.items ≡ out.old.items ++ plain_string (attribute_name attribute)) }
    ensures grows { Grows out.old.items out.new.items }
{
    push_byte(out, b'"')?;
    push_text(out, attribute.name())?;
    push_byte(out, b'"')
}

// Adds the names of those of the candidates that are among the attributes.
fn push_attributes_among(
    out: &mut Vec<u8>,
    attributes: Attributes,
    candidates: &[Attribute],
) -> Result<(), AllocError>
    ensures ok { OnOk result (out.new.items ≡ out.old.items
        ++ separated (map (λ x. plain_string (attribute_name x)) (filter (has_attribute attributes) candidates.now))) }
    ensures grows { Grows out.old.items out.new.items }
{
    let mut first = true;
    for attribute in candidates {
        if attributes.has(*attribute) {
            push_comma(out, first)?;
            push_attribute(out, *attribute)?;
            first = false;
        }
    }
    Ok(())
}

// Adds the names of attributes.
fn push_attributes(out: &mut Vec<u8>, attributes: Attributes) -> Result<(), AllocError>
    ensures ok { OnOk result (out.new.items ≡ out.old.items ++ separated (attribute_texts attributes)) }
    ensures grows { Grows out.old.items out.new.items }
{
    push_attributes_among(out, attributes, &Attribute::ALL)
}

/// Adds a face.
pub fn push_face(out: &mut Vec<u8>, face: &Face) -> Result<(), AllocError>
    ensures ok { OnOk result (out.new.items ≡ out.old.items ++ face_text face.now) }
    ensures grows { Grows out.old.items out.new.items }
{
    push_text(out, "{\"attributes\":[")?;
    push_attributes(out, face.attributes)?;
    push_colours(out, face)?;
    Ok(())
}

// Adds what stands behind the attributes of a face.
fn push_colours(out: &mut Vec<u8>, face: &Face) -> Result<(), AllocError>
    ensures ok { OnOk result (out.new.items ≡ out.old.items ++ (
        codes "],\"bg\":\"" ++ (colour_text face.now.bg ++ (codes "\",\"fg\":\"" ++ (colour_text face.now.fg
        ++ (codes "\",\"underline\":\"" ++ (colour_text face.now.underline ++ codes "\"}"))))))) }
    ensures grows { Grows out.old.items out.new.items }
{
    push_colour_behind(out, "],\"bg\":\"", face.bg)?;
    push_colour_behind(out, "\",\"fg\":\"", face.fg)?;
    push_colour_behind(out, "\",\"underline\":\"", face.underline)?;
    push_text(out, "\"}")?;
    Ok(())
}
