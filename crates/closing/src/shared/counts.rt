//! How many there are of each.
ghost use Rattle.std.specs.Prelude.{◌≡◌, length};
ghost use Rattle.slices.specs.Elements.{machine_count, node_count};

use catalogue::Problem;

/// How many machines a problem has.
pub fn machines_of(p: &Problem) -> usize
    ensures { result ≡ machine_count p.now.given }
{
    p.cluster().machines().len()
}

/// How many nodes.
pub fn nodes_of(p: &Problem) -> usize
    ensures { result ≡ node_count p.now.given }
{
    p.cluster().nodes().len()
}

/// How many resources.
pub fn resources_of(p: &Problem) -> usize
    ensures { result ≡ length p.now.given.resources }
{
    p.cluster().resources().len()
}
