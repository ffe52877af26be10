//! Colours, and the attributes of a face.

ghost use Rattle.std.specs.Prelude.{◌≡◌};
ghost use Rattle.kak_faces.specs.Colours.{colour_name, attribute_name, has_attribute, united};

/// A colour of the terminal's palette, or `Default`, which leaves the choice to the face below it.
#[derive(Clone, Copy, PartialEq, Eq, Debug)]
pub enum NamedColour {
    Default,
    Black,
    Red,
    Green,
    Yellow,
    Blue,
    Magenta,
    Cyan,
    White,
    BrightBlack,
    BrightRed,
    BrightGreen,
    BrightYellow,
    BrightBlue,
    BrightMagenta,
    BrightCyan,
    BrightWhite,
}

impl NamedColour {
    /// The colour's name, as face texts and drawings have it.
    pub fn name(self) -> &'static str
        ensures { result.now ≡ colour_name self }
    {
        match self {
            NamedColour::Default => "default",
            NamedColour::Black => "black",
            NamedColour::Red => "red",
            NamedColour::Green => "green",
            NamedColour::Yellow => "yellow",
            NamedColour::Blue => "blue",
            NamedColour::Magenta => "magenta",
            NamedColour::Cyan => "cyan",
            NamedColour::White => "white",
            NamedColour::BrightBlack => "bright-black",
            NamedColour::BrightRed => "bright-red",
            NamedColour::BrightGreen => "bright-green",
            NamedColour::BrightYellow => "bright-yellow",
            NamedColour::BrightBlue => "bright-blue",
            NamedColour::BrightMagenta => "bright-magenta",
            NamedColour::BrightCyan => "bright-cyan",
            NamedColour::BrightWhite => "bright-white",
        }
    }
}

impl NamedColour {
    ghost use Rattle.kak_faces.specs.Same.{palette_place};

    /// The place of the colour in the palette, from 0.
    pub fn palette_place(self) -> u8
        ensures { result ≡ palette_place self }
    {
        match self {
            NamedColour::Default => 0,
            NamedColour::Black => 1,
            NamedColour::Red => 2,
            NamedColour::Green => 3,
            NamedColour::Yellow => 4,
            NamedColour::Blue => 5,
            NamedColour::Magenta => 6,
            NamedColour::Cyan => 7,
            NamedColour::White => 8,
            NamedColour::BrightBlack => 9,
            NamedColour::BrightRed => 10,
            NamedColour::BrightGreen => 11,
            NamedColour::BrightYellow => 12,
            NamedColour::BrightBlue => 13,
            NamedColour::BrightMagenta => 14,
            NamedColour::BrightCyan => 15,
            NamedColour::BrightWhite => 16,
        }
    }
}

/// A colour: one with a name, or the amounts of red, green and blue, each from 0 to 255.
#[derive(Clone, Copy, PartialEq, Eq, Debug)]
pub enum Colour {
    Named(NamedColour),
    Rgb(u8, u8, u8),
}

impl Colour {
    ghost use Rattle.kak_faces.specs.Same.{same_colour};

    /// Whether this colour and another are the same.
    pub fn is_same(self, other: Colour) -> bool
        ensures { result ≡ same_colour self other }
    {
        match (self, other) {
            (Colour::Named(a), Colour::Named(b)) => a.palette_place() == b.palette_place(),
            (Colour::Rgb(r, g, b), Colour::Rgb(x, y, z)) => r == x && g == y && b == z,
            _ => false,
        }
    }
}

/// One attribute of a face.
#[derive(Clone, Copy, PartialEq, Eq, Debug)]
pub enum Attribute {
    Underline,
    Reverse,
    Bold,
    Blink,
    Dim,
    Italic,
    FinalFg,
    FinalBg,
    FinalAttr,
}

impl Attribute {
    /// All attributes, in the order in which they are written.
    pub const ALL: [Attribute; 9] = [
        Attribute::Underline,
        Attribute::Reverse,
        Attribute::Bold,
        Attribute::Blink,
        Attribute::Dim,
        Attribute::Italic,
        Attribute::FinalFg,
        Attribute::FinalBg,
        Attribute::FinalAttr,
    ];

    /// The attribute's name, as drawings have it.
    pub fn name(self) -> &'static str
        ensures { result.now ≡ attribute_name self }
    {
        match self {
            Attribute::Underline => "underline",
            Attribute::Reverse => "reverse",
            Attribute::Bold => "bold",
            Attribute::Blink => "blink",
            Attribute::Dim => "dim",
            Attribute::Italic => "italic",
            Attribute::FinalFg => "final_fg",
            Attribute::FinalBg => "final_bg",
            Attribute::FinalAttr => "final_attr",
        }
    }
}

/// The attributes of a face. The last three say that a colour or the attributes stay as they are
/// where another face is merged with this one.
#[derive(Clone, Copy, PartialEq, Eq, Debug)]
pub struct Attributes {
    pub underline: bool,
    pub reverse: bool,
    pub bold: bool,
    pub blink: bool,
    pub dim: bool,
    pub italic: bool,
    pub final_fg: bool,
    pub final_bg: bool,
    pub final_attr: bool,
}

impl Attributes {
    /// No attribute at all.
    pub const NONE: Attributes = Attributes {
        underline: false,
        reverse: false,
        bold: false,
        blink: false,
        dim: false,
        italic: false,
        final_fg: false,
        final_bg: false,
        final_attr: false,
    };

    /// Whether this attribute is among them.
    pub fn has(self, attribute: Attribute) -> bool
        ensures { result ≡ has_attribute self attribute }
    {
        match attribute {
            Attribute::Underline => self.underline,
            Attribute::Reverse => self.reverse,
            Attribute::Bold => self.bold,
            Attribute::Blink => self.blink,
            Attribute::Dim => self.dim,
            Attribute::Italic => self.italic,
            Attribute::FinalFg => self.final_fg,
            Attribute::FinalBg => self.final_bg,
            Attribute::FinalAttr => self.final_attr,
        }
    }

    /// The attributes that one or the other has.
    pub fn union(self, other: Attributes) -> Attributes
        ensures { result ≡ united self other }
    {
        Attributes {
            underline: self.underline | other.underline,
            reverse: self.reverse | other.reverse,
            bold: self.bold | other.bold,
            blink: self.blink | other.blink,
            dim: self.dim | other.dim,
            italic: self.italic | other.italic,
            final_fg: self.final_fg | other.final_fg,
            final_bg: self.final_bg | other.final_bg,
            final_attr: self.final_attr | other.final_attr,
        }
    }
}

impl Attributes {
    ghost use Rattle.kak_faces.specs.Same.{same_attributes};

    /// Whether these are the same attributes as others.
    pub fn is_same(self, other: Attributes) -> bool
        ensures { result ≡ same_attributes self other }
    {
        (self.underline == other.underline)
            & (self.reverse == other.reverse)
            & (self.bold == other.bold)
            & (self.blink == other.blink)
            & (self.dim == other.dim)
            & (self.italic == other.italic)
            & (self.final_fg == other.final_fg)
            & (self.final_bg == other.final_bg)
            & (self.final_attr == other.final_attr)
    }
}
