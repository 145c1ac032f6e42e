//! How marks look.
use crate::shade::Shade;

/// How a mark looks.
#[derive(Clone, Copy, Debug, PartialEq, Eq)]
pub enum Style {
    /// A migration.
    Moves,
    /// A machine that boots or resumes.
    Arrives,
    /// A machine that shuts down, is suspended or killed.
    Leaves,
    /// A machine that is forged, or whose allocation changes.
    Changes,
    /// A node that boots or shuts down.
    Power,
    /// While a node is off.
    Off,
    /// The same in the legend.
    OffKey,
    /// While a node boots or shuts down.
    Busy,
    /// What exceeds a capacity.
    Over,
    Grid,
    Separator,
    /// The capacity of a usable node.
    Capacity,
    /// The capacity of a node that is not usable.
    Unusable,
    /// The first broken instant.
    Broken,
    Verdict,
    BadVerdict,
    Small,
    Name,
    /// Small words: to the right of their place, to the left of it, around it.
    Tick,
    TickLeft,
    TickMiddle,
    /// A peak near the capacity, and one above it.
    Full,
    BadPeak,
    /// A label on a light bar, on a dark one, and beside a bar at either side.
    Dark,
    White,
    Beside,
    BesideLeft,
    /// The end of an action, on a light bar and on a dark one.
    End,
    WhiteEnd,
    /// A shade of a heat map, in the legend.
    Heat(Shade),
}

impl Style {
    ghost use Rattle.std.specs.Prelude.{◌≡◌};
    ghost use Rattle.picture.specs.Looks.{class_of};

    /// The classes of the elements that look so.
    pub(crate) fn class(self) -> &'static str
        ensures { result.now ≡ class_of self }
    {
        match self {
            Style::Moves => "moves",
            Style::Arrives => "arrives",
            Style::Leaves => "leaves",
            Style::Changes => "changes",
            Style::Power => "power",
            Style::Off => "off",
            Style::OffKey => "off key",
            Style::Busy => "busy",
            Style::Over => "over",
            Style::Grid => "grid",
            Style::Separator => "separator",
            Style::Capacity => "capacity",
            Style::Unusable => "unusable",
            Style::Broken => "broken",
            Style::Verdict => "verdict",
            Style::BadVerdict => "verdict bad",
            Style::Small => "small",
            Style::Name => "name",
            Style::Tick => "tick",
            Style::TickLeft => "tick left",
            Style::TickMiddle => "tick middle",
            Style::Full => "tick full",
            Style::BadPeak => "tick bad",
            Style::Dark => "label",
            Style::White => "label white",
            Style::Beside => "beside",
            Style::BesideLeft => "beside left",
            Style::End => "end",
            Style::WhiteEnd => "end white",
            Style::Heat(shade) => shade.class(),
        }
    }
}

/// How the classes look, and the hatching of what is off.
pub(crate) const STYLES: &str = "
<style>
text{font:12px Verdana,\"DejaVu Sans\",sans-serif;fill:#111}
.page{fill:#fff}
.moves{fill:#0072b2;stroke:#0072b2} .arrives{fill:#56b4e9;stroke:#56b4e9} .leaves{fill:#e69f00;stroke:#e69f00}
.changes{fill:#cc79a7;stroke:#cc79a7} .power{fill:#4d4d4d;stroke:#4d4d4d}
.moves,.arrives,.leaves,.changes,.power{stroke-width:0}
.twins rect{fill:#fff;stroke-width:2}
.off{fill:url(#off)} .key{stroke:#999} .busy{fill:#ededed} .over{fill:#d55e00;stroke:#000}
.load{fill:#d3dde6;stroke:#44586b}
.grid{stroke:#e3e3e3} .separator{stroke:#bbb} .capacity{stroke:#000;stroke-width:1.5}
.unusable{stroke:#000;stroke-dasharray:2 3} .broken{stroke:#d55e00;stroke-width:2;stroke-dasharray:5 3}
.verdict{font-size:17px;font-weight:bold} .name{font-weight:bold} .small{font-size:11px;fill:#444}
.tick{font-size:10px;fill:#444} .full{font-weight:bold;fill:#111} .bad{font-weight:bold;fill:#b03a00}
.white{fill:#fff} .end{font-size:10px;text-anchor:end}
.beside{paint-order:stroke;stroke:#fff;stroke-width:3px} .left{text-anchor:end} .middle{text-anchor:middle}
</style>
<defs><pattern id=\"off\" width=\"6\" height=\"6\" patternUnits=\"userSpaceOnUse\" patternTransform=\"rotate(45)\"><rect width=\"6\" height=\"6\" fill=\"#f2f2f2\"/><rect width=\"1\" height=\"6\" fill=\"#b5b5b5\"/></pattern></defs>
";
