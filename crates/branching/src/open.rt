//! Elements that are not fixed.
ghost use Rattle.std.specs.Prelude.{◌≡◌};
ghost use Rattle.domains.specs.Sets.{IsFixed, IsFirstUnfixed};

use cluster::Element;
use domains::Region;

/// The first element that is not fixed.
pub fn first_open(g: &Region) -> Element
    requires { ¬ IsFixed g.now }
    ensures { IsFirstUnfixed g.now result }
{
    match g.first_unfixed() {
        Some(x) => x,
        None => unreachable!(),
    }
}
