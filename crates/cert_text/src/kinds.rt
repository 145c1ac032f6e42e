//! The first words of lines, parts, reasons and goals.
ghost use Rattle.std.specs.Prelude.{◌≡◌};
ghost use Rattle.cert_text.specs.Kinds.{goal_word, line_word, named, part_word, reason_word};

use reasons::ReasonKind;

/// What a line after the header begins with.
#[derive(Clone, Copy, Debug, PartialEq, Eq)]
pub enum LineKind {
    Decide,
    Cut,
    Fail,
    Plan,
    Left,
    End,
}

/// What a part begins with.
#[derive(Clone, Copy, Debug, PartialEq, Eq)]
pub enum PartKind {
    Idle,
    Upto,
    From,
}

/// What stands after `end`.
#[derive(Clone, Copy, Debug, PartialEq, Eq)]
pub enum GoalKind {
    Optimal,
    Infeasible,
    Undecided,
}

/// The kinds of lines, each once.
pub const LINE_KINDS: [LineKind; 6] = [
    LineKind::Decide,
    LineKind::Cut,
    LineKind::Fail,
    LineKind::Plan,
    LineKind::Left,
    LineKind::End,
];

/// The kinds of parts, each once.
pub const PART_KINDS: [PartKind; 3] = [PartKind::Idle, PartKind::Upto, PartKind::From];

/// The kinds of goals, each once.
pub const GOAL_KINDS: [GoalKind; 3] = [
    GoalKind::Optimal,
    GoalKind::Infeasible,
    GoalKind::Undecided,
];

/// The kinds of reasons, each once.
pub const REASON_KINDS: [ReasonKind; 10] = [
    ReasonKind::Empty,
    ReasonKind::Bound,
    ReasonKind::Load,
    ReasonKind::Pair,
    ReasonKind::Place,
    ReasonKind::Group,
    ReasonKind::SetLoad,
    ReasonKind::Power,
    ReasonKind::Usable,
    ReasonKind::Hall,
];

impl LineKind {
    /// The word of the kind.
    #[tactic(auto, unfolding(crate::specs::Kinds::line_word))]
    pub fn word(self) -> &'static str
        ensures { result.now ≡ line_word self }
    {
        match self {
            LineKind::Decide => "decide",
            LineKind::Cut => "cut",
            LineKind::Fail => "fail",
            LineKind::Plan => "plan",
            LineKind::Left => "left",
            LineKind::End => "end",
        }
    }

    /// The kind of that word; `None` exactly where there is none.
    pub fn of_word(word: &[u8]) -> Option<LineKind>
        ensures { result ≡ named line_word LINE_KINDS word.now }
    {
        LINE_KINDS
            .iter()
            .copied()
            .find(|kind| kind.word().as_bytes() == word)
    }
}

impl PartKind {
    /// The word of the kind.
    #[tactic(auto, unfolding(crate::specs::Kinds::part_word))]
    pub fn word(self) -> &'static str
        ensures { result.now ≡ part_word self }
    {
        match self {
            PartKind::Idle => "idle",
            PartKind::Upto => "upto",
            PartKind::From => "from",
        }
    }

    /// The kind of that word; `None` exactly where there is none.
    pub fn of_word(word: &[u8]) -> Option<PartKind>
        ensures { result ≡ named part_word PART_KINDS word.now }
    {
        PART_KINDS
            .iter()
            .copied()
            .find(|kind| kind.word().as_bytes() == word)
    }
}

impl GoalKind {
    /// The word of the kind.
    #[tactic(auto, unfolding(crate::specs::Kinds::goal_word))]
    pub fn word(self) -> &'static str
        ensures { result.now ≡ goal_word self }
    {
        match self {
            GoalKind::Optimal => "optimal",
            GoalKind::Infeasible => "infeasible",
            GoalKind::Undecided => "undecided",
        }
    }

    /// The kind of that word; `None` exactly where there is none.
    pub fn of_word(word: &[u8]) -> Option<GoalKind>
        ensures { result ≡ named goal_word GOAL_KINDS word.now }
    {
        GOAL_KINDS
            .iter()
            .copied()
            .find(|kind| kind.word().as_bytes() == word)
    }
}

/// The word of a kind of reasons.
#[tactic(auto, unfolding(crate::specs::Kinds::reason_word))]
pub fn reason_word(kind: ReasonKind) -> &'static str
    ensures { result.now ≡ reason_word kind }
{
    match kind {
        ReasonKind::Empty => "empty",
        ReasonKind::Bound => "bound",
        ReasonKind::Load => "load",
        ReasonKind::Pair => "pair",
        ReasonKind::Place => "place",
        ReasonKind::Group => "group",
        ReasonKind::SetLoad => "setload",
        ReasonKind::Power => "power",
        ReasonKind::Usable => "usable",
        ReasonKind::Hall => "hall",
    }
}

/// The kind of reasons of that word; `None` exactly where there is none.
pub fn reason_of_word(word: &[u8]) -> Option<ReasonKind>
    ensures { result ≡ named reason_word REASON_KINDS word.now }
{
    REASON_KINDS
        .iter()
        .copied()
        .find(|kind| reason_word(*kind).as_bytes() == word)
}
