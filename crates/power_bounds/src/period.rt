//! Periods of time, and the instants at which one ends.
ghost use Rattle.std.specs.Prelude.{◌≡◌, ◌<◌, ◌≤◌};
ghost use Rattle.cluster.specs.declared.choices.Choice.{Choice as AnyChoice};

use cluster::{Choice, Instant};
use domains::Row;

/// The instants from one to another, both among them.
#[derive(Clone, Copy)]
pub struct Period {
    pub from: Instant,
    pub to: Instant,
}

/// The choice at the place of a row with a start.
pub fn act(row: Row, start: Instant) -> Choice
    ensures { result ≡ AnyChoice.Act row.place start }
{
    Choice::Act {
        place: row.place,
        start,
    }
}

/// The sooner of what is found and an instant, if that is later than `after`.
pub fn sooner(after: u64, best: u64, at: u64) -> u64
    requires { after < best }
    ensures later { after < result }
    ensures less { result ≤ best }
{
    if at > after && at < best { at } else { best }
}
