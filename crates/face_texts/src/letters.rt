//! The attributes of a face text.

ghost use Rattle.std.specs.Prelude.{◌≡◌, ◌+◌, ◌<◌, ◌^◌, length};
ghost use Rattle.face_texts.specs.Letters.{with_final, with_letter, attributes_at};

use kak_faces::Attributes;

// Attributes with one that says that something is final, by its letter.
#[tactic(auto, unfolding(crate::specs::Letters::with_final))]
fn with_final(have: Attributes, letter: char) -> Option<Attributes>
    ensures { result ≡ with_final have letter }
{
    match letter {
        'f' => Some(Attributes {
            final_fg: true,
            ..have
        }),
        'g' => Some(Attributes {
            final_bg: true,
            ..have
        }),
        'a' => Some(Attributes {
            final_attr: true,
            ..have
        }),
        'F' => Some(Attributes {
            final_fg: true,
            final_bg: true,
            final_attr: true,
            ..have
        }),
        _ => None,
    }
}

// Attributes with that of a letter.
#[tactic(auto, unfolding(crate::specs::Letters::with_letter))]
fn with_letter(have: Attributes, letter: char) -> Option<Attributes>
    ensures { result ≡ with_letter have letter }
{
    match letter {
        'u' => Some(Attributes {
            underline: true,
            ..have
        }),
        'r' => Some(Attributes {
            reverse: true,
            ..have
        }),
        'b' => Some(Attributes { bold: true, ..have }),
        'B' => Some(Attributes {
            blink: true,
            ..have
        }),
        'd' => Some(Attributes { dim: true, ..have }),
        'i' => Some(Attributes {
            italic: true,
            ..have
        }),
        _ => with_final(have, letter),
    }
}

/// The attributes of letters from a place on, of which there is one at least; or the place of what is none.
#[tactic(auto, unfolding(crate::specs::Letters::attributes_at))]
pub(crate) fn attributes_at(at: usize, letters: &[char]) -> Result<Attributes, usize>
    requires { at + length letters.now < 2 ^ 64 }
    ensures { result ≡ attributes_at at letters.now }
{
    if letters.is_empty() {
        return Err(at);
    }
    let mut have = Attributes::NONE;
    for (i, letter) in letters.iter().enumerate() {
        let Some(more) = with_letter(have, *letter) else {
            return Err(at + i);
        };
        have = more;
    }
    Ok(have)
}
