//! The states of machines.
ghost use Rattle.std.specs.Prelude.{◌≡◌};
ghost use Rattle.cluster.specs.States.{host_of, state_number, state_word};

use crate::ids::NodeId;
use crate::words::word_at;

/// The present state of a machine, as in BtrPlace's life cycle of a virtual machine:
/// not forged yet, ready to boot, running or suspended on a node, or killed.
#[derive(Clone, Copy, Debug, PartialEq, Eq)]
pub enum State {
    Init,
    Ready,
    Running(NodeId),
    Sleeping(NodeId),
    Gone,
}

/// The words of the five states, in the order in which they are declared.
pub const STATE_WORDS: [&str; 5] = ["init", "ready", "running", "sleeping", "gone"];

impl State {
    /// The node on which a machine in this state runs, or on which its image lies.
    pub fn host(self) -> Option<NodeId>
        ensures { result ≡ host_of self }
    {
        match self {
            State::Running(host) | State::Sleeping(host) => Some(host),
            State::Init | State::Ready | State::Gone => None,
        }
    }

    /// The word of the state, without its host.
    pub fn word(self) -> &'static str
        ensures { result.now ≡ state_word self }
    {
        word_at(&STATE_WORDS, self.number())
    }

    // the place of its word
    fn number(self) -> usize
        ensures { result ≡ state_number self }
    {
        match self {
            State::Init => 0,
            State::Ready => 1,
            State::Running(_) => 2,
            State::Sleeping(_) => 3,
            State::Gone => 4,
        }
    }
}
