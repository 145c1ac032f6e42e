//! How heat looks: the shades of a row, and which of them a node has.
ghost use Rattle.std.specs.Prelude.{◌≡◌, ◌≤◌};
ghost use Rattle.picture.specs.Prelude.{class_of_shade, is_same_shade, number_of_shade, shade_of, shade_of_parts};

use crate::marks::{Heat, Power};

/// How full a node is, as it is drawn.
#[derive(Clone, Copy, Debug, PartialEq, Eq)]
pub enum Shade {
    /// While it is off.
    Hatched,
    /// While it boots or shuts down.
    Edged,
    /// Below 25 parts of 100, below 50, below 75, below 90, and up to 100.
    Faint,
    Light,
    Medium,
    Strong,
    Packed,
    /// Above the capacity.
    Overfull,
}

impl Shade {
    /// The class of the rectangles that look so.
    pub(crate) fn class(self) -> &'static str
        ensures { result.now ≡ class_of_shade self }
    {
        match self {
            Shade::Hatched => "hatched",
            Shade::Edged => "edged",
            Shade::Faint => "faint",
            Shade::Light => "light",
            Shade::Medium => "medium",
            Shade::Strong => "strong",
            Shade::Packed => "packed",
            Shade::Overfull => "overfull",
        }
    }

    /// Its number, by which shades are told apart.
    fn number(self) -> u8
        ensures { result ≡ number_of_shade self }
    {
        match self {
            Shade::Hatched => 0,
            Shade::Edged => 1,
            Shade::Faint => 2,
            Shade::Light => 3,
            Shade::Medium => 4,
            Shade::Strong => 5,
            Shade::Packed => 6,
            Shade::Overfull => 7,
        }
    }

    /// Whether two shades are the same.
    pub(crate) fn is(self, other: Shade) -> bool
        ensures { result ≡ is_same_shade self other }
    {
        self.number() == other.number()
    }
}

/// The shade of so many parts of 100.
fn shade_of_parts(parts: u64) -> Shade
    ensures { result ≡ shade_of_parts parts }
{
    match parts {
        0..25 => Shade::Faint,
        25..50 => Shade::Light,
        50..75 => Shade::Medium,
        75..90 => Shade::Strong,
        90..=100 => Shade::Packed,
        _ => Shade::Overfull,
    }
}

/// The shade of a node.
pub(crate) fn shade_of(heat: Heat) -> Shade
    ensures { result ≡ shade_of heat }
{
    match heat.power {
        Power::Off => Shade::Hatched,
        Power::Turning => Shade::Edged,
        Power::On => shade_of_parts(heat.parts),
    }
}

/// How the shades and the parts of a heat map look.
pub(crate) const HEAT_STYLES: &str = "<style>
.faint{fill:#f4f4f4} .light{fill:#dcdcdc} .medium{fill:#b9b9b9} .strong{fill:#868686} .packed{fill:#3a3a3a}
.overfull{fill:#d55e00} .hatched{fill:url(#off)} .edged{fill:#fff;stroke:#000;stroke-width:1.5}
</style>
";
