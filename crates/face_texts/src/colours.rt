//! The colours of a face text.

ghost use Rattle.std.specs.Prelude.{◌≡◌, ◌==◌, ◌+◌, ◌*◌, ◌<◌, ◌≤◌, ◌^◌, length, find, option_map};
ghost use Rattle.std.specs.Str.{bytes_eq};
ghost use Rattle.kak_faces.specs.declared.colour.Colour.TheVariants.{Named as NamedColourOf};
ghost use Rattle.face_texts.specs.Colours.{is_name_of, all_colours, hex_pair, rgb_of, word_colour, colour_of, colour_at, up_to, with_underline, with_ground, colours_of};

use kak_faces::{Colour, NamedColour};

// The three colours of a face.
#[derive(Clone, Copy, Debug)]
pub(crate) struct Colours {
    pub fg: Colour,
    pub bg: Colour,
    pub underline: Colour,
}

const DEFAULT: Colour = Colour::Named(NamedColour::Default);

const NAMES: [NamedColour; 17] = [
    NamedColour::Default,
    NamedColour::Black,
    NamedColour::Red,
    NamedColour::Green,
    NamedColour::Yellow,
    NamedColour::Blue,
    NamedColour::Magenta,
    NamedColour::Cyan,
    NamedColour::White,
    NamedColour::BrightBlack,
    NamedColour::BrightRed,
    NamedColour::BrightGreen,
    NamedColour::BrightYellow,
    NamedColour::BrightBlue,
    NamedColour::BrightMagenta,
    NamedColour::BrightCyan,
    NamedColour::BrightWhite,
];

/// How many characters stand before the first that is a given one, or how many there are.
pub(crate) fn up_to(text: &[char], mark: char) -> usize
    ensures value { result ≡ up_to mark text.now }
    ensures inside { result ≤ length text.now }
{
    for (i, c) in text.iter().enumerate() {
        if *c == mark {
            return i;
        }
    }
    text.len()
}

// Whether a character is that of a byte.
fn is_char(c: char, byte: u8) -> bool
    ensures { result ≡ (c == byte) }
{
    c as u32 == u32::from(byte)
}

// Whether a word is a name.
fn is_word(word: &[char], name: &str) -> bool
    ensures { result ≡ bytes_eq word.now name.now }
{
    let bytes = name.as_bytes();
    if word.len() != bytes.len() {
        return false;
    }
    for i in 0..word.len() {
        if !is_char(word[i], bytes[i]) {
            return false;
        }
    }
    true
}

// The first of some colours that a word names.
fn named_among(word: &[char], names: &[NamedColour]) -> Option<NamedColour>
    ensures { result ≡ find (is_name_of word.now) names.now }
{
    for name in names {
        if is_word(word, name.name()) {
            return Some(*name);
        }
    }
    None
}

// The colour that a word names.
fn named(word: &[char]) -> Option<Colour>
    ensures { result ≡ option_map NamedColourOf (find (is_name_of word.now) all_colours) }
{
    let name = named_among(word, &NAMES)?;
    Some(Colour::Named(name))
}

// The number of two hexadecimal digits.
fn hex_pair(high: char, low: char) -> Option<u8>
    ensures { result ≡ hex_pair high low }
{
    let high = high.to_digit(16)?;
    let low = low.to_digit(16)?;
    Some((16 * high + low) as u8)
}

// The colour of `rgb:` and six hexadecimal digits.
fn rgb_of(word: &[char]) -> Option<Colour>
    ensures { result ≡ rgb_of word.now }
{
    if word.len() != 10 {
        return None;
    }
    let (mark, _) = word.split_at(4);
    if !is_word(mark, "rgb:") {
        return None;
    }
    let red = hex_pair(word[4], word[5])?;
    let green = hex_pair(word[6], word[7])?;
    let blue = hex_pair(word[8], word[9])?;
    Some(Colour::Rgb(red, green, blue))
}

// The colour that a word is.
#[tactic(auto, unfolding(crate::specs::Colours::word_colour))]
fn word_colour(word: &[char]) -> Option<Colour>
    ensures { result ≡ word_colour word.now }
{
    match named(word) {
        Some(colour) => Some(colour),
        None => rgb_of(word),
    }
}

// The colour that a word is, which may be missing unless it is needed.
fn colour_of(word: &[char], needed: bool) -> Option<Colour>
    ensures { result ≡ colour_of needed word.now }
{
    if word.is_empty() {
        if needed {
            return None;
        }
        return Some(DEFAULT);
    }
    word_colour(word)
}

// The colour of a word at a place, or else that place.
fn colour_at(at: usize, word: &[char], needed: bool) -> Result<Colour, usize>
    ensures { result ≡ colour_at needed at word.now }
{
    colour_of(word, needed).ok_or(at)
}

// The colours of a text from a place on, where the first two are given.
#[tactic(auto, unfolding(crate::specs::Colours::with_underline))]
fn with_underline(fg: Colour, bg: Colour, at: usize, text: &[char]) -> Result<Colours, usize>
    requires { at + length text.now < 2 ^ 64 }
    ensures { result ≡ with_underline fg bg at text.now }
{
    let comma = up_to(text, ',');
    let (word, _) = text.split_at(comma);
    let underline = colour_at(at, word, comma == text.len())?;
    if comma != text.len() {
        return Err(at + comma);
    }
    Ok(Colours { fg, bg, underline })
}

// The colours of a text from a place on, where the first is given.
#[tactic(auto, unfolding(crate::specs::Colours::with_ground))]
fn with_ground(fg: Colour, at: usize, text: &[char]) -> Result<Colours, usize>
    requires { at + length text.now < 2 ^ 64 }
    ensures { result ≡ with_ground fg at text.now }
{
    let comma = up_to(text, ',');
    let (word, _) = text.split_at(comma);
    let bg = colour_at(at, word, comma == text.len())?;
    if comma == text.len() {
        return Ok(Colours {
            fg,
            bg,
            underline: DEFAULT,
        });
    }
    let (_, behind) = text.split_at(comma + 1);
    with_underline(fg, bg, at + comma + 1, behind)
}

/// The colours of a text, or the place of what has no reading.
#[tactic(auto, unfolding(crate::specs::Colours::colours_of))]
pub(crate) fn colours_of(text: &[char]) -> Result<Colours, usize>
    ensures { result ≡ colours_of text.now }
{
    let comma = up_to(text, ',');
    let (word, _) = text.split_at(comma);
    let fg = colour_at(0, word, false)?;
    if comma == text.len() {
        return Ok(Colours {
            fg,
            bg: DEFAULT,
            underline: DEFAULT,
        });
    }
    let (_, behind) = text.split_at(comma + 1);
    with_ground(fg, comma + 1, behind)
}
