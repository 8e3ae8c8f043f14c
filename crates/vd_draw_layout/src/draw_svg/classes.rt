//! How marks look: each has a class, whose look the style of the document says.

ghost use Rattle.std.specs.Prelude.{◌≡◌};
ghost use Rattle.vd_draw_layout.specs.Classes as classes;

/// How a text looks.
#[derive(Clone, Copy, PartialEq, Eq)]
pub enum Style {
    /// As most texts.
    Plain,
    Bold,
    /// Small.
    Small,
    /// A line of the source.
    Source,
    /// The heading of the drawing.
    Heading,
    /// The name of a host, above its lane.
    Host,
    /// The names of two hosts, above a lane of theirs.
    Pair,
    /// What lies below a name, so that it can be read over lines.
    Halo,
    /// A name on an arrow.
    Name,
}

/// How a line looks.
#[derive(Clone, Copy, PartialEq, Eq)]
pub enum Stroke {
    /// The lane of a host.
    Host,
    /// The lane of two hosts.
    Pair,
    /// What joins copies.
    Copies,
    /// What parts the two blocks of a branch.
    Otherwise,
    Clear,
    Checked,
    Opened,
    /// The white middle of an arrow that opens.
    Middle,
    Revealed,
    Shared,
    Committed,
    Converted,
    Stays,
}

/// How a rectangle looks.
#[derive(Clone, Copy, PartialEq, Eq)]
pub enum Area {
    /// The whole drawing.
    Page,
    /// Around the name of a host.
    Host,
    Branch,
    Loop,
    /// A cost.
    Cost,
    /// A cost that is among the dear ones.
    Dear,
}

/// A shape that stands for a word at a place.
#[derive(Clone, Copy, PartialEq, Eq)]
pub enum Shape {
    /// At one host.
    Host,
    /// A copy.
    Copy,
    Sums,
    Bits,
    Committed,
    /// In a variable or an array.
    Variable,
    /// Printed.
    Printed,
}

impl Style {
    /// The name of its class.
    pub(crate) fn class(self) -> &'static [u8]
        ensures { result.now ≡ classes.style_class self }
    {
        match self {
            Style::Plain => b"plain",
            Style::Bold => b"bold",
            Style::Small => b"small",
            Style::Source => b"source",
            Style::Heading => b"heading",
            Style::Host => b"host",
            Style::Pair => b"pair",
            Style::Halo => b"halo",
            Style::Name => b"name",
        }
    }
}

impl Stroke {
    /// The name of its class.
    pub(crate) fn class(self) -> &'static [u8]
        ensures { result.now ≡ classes.stroke_class self }
    {
        match self {
            Stroke::Host => b"host-lane",
            Stroke::Pair => b"pair-lane",
            Stroke::Copies => b"copies",
            Stroke::Otherwise => b"otherwise",
            Stroke::Clear => b"clear",
            Stroke::Checked => b"checked",
            Stroke::Opened => b"opened",
            Stroke::Middle => b"middle",
            Stroke::Revealed => b"revealed",
            Stroke::Shared => b"shared",
            Stroke::Committed => b"committed",
            Stroke::Converted => b"converted",
            Stroke::Stays => b"stays",
        }
    }
}

impl Area {
    /// The name of its class.
    pub(crate) fn class(self) -> &'static [u8]
        ensures { result.now ≡ classes.area_class self }
    {
        match self {
            Area::Page => b"page",
            Area::Host => b"host-name",
            Area::Branch => b"branch",
            Area::Loop => b"loop",
            Area::Cost => b"cost",
            Area::Dear => b"dear",
        }
    }

    /// How its corners are rounded.
    pub(crate) fn corners(self) -> &'static [u8]
        ensures { result.now ≡ classes.area_corners self }
    {
        match self {
            Area::Loop => b" rx=\"8\"",
            Area::Page | Area::Host | Area::Branch | Area::Cost | Area::Dear => b"",
        }
    }
}

impl Shape {
    /// The name of its drawing.
    pub(crate) fn class(self) -> &'static [u8]
        ensures { result.now ≡ classes.shape_class self }
    {
        match self {
            Shape::Host => b"#at-host",
            Shape::Copy => b"#at-copy",
            Shape::Sums => b"#at-sums",
            Shape::Bits => b"#at-bits",
            Shape::Committed => b"#at-committed",
            Shape::Variable => b"#at-variable",
            Shape::Printed => b"#at-printed",
        }
    }
}
