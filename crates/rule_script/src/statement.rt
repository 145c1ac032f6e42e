//! What a line says.
use crate::sets::{SetText, SetTexts};
use crate::text::Text;

/// A call: a kind of constraint with its arguments as they are written. Where a kind carries the
/// flag, the last part tells whether `always` stood before it.
#[derive(Drop)]
pub enum Call<'a> {
    Spread(SetText<'a>, bool),
    Ban(SetText<'a>, SetText<'a>, bool),
    Fence(SetText<'a>, SetText<'a>, bool),
    Gather(SetText<'a>, bool),
    Lonely(SetText<'a>, bool),
    Among(SetText<'a>, SetTexts<'a>, bool),
    Split(SetTexts<'a>, bool),
    Root(SetText<'a>),
    Precedence(SetText<'a>, SetText<'a>),
    Serialize(SetText<'a>),
    Preserve(SetText<'a>, Text<'a>, u64),
    ResourceCapacity(SetText<'a>, Text<'a>, u64, bool),
    RunningCapacity(SetText<'a>, u64, bool),
    MaxOnline(SetText<'a>, u64, bool),
    Overbook(SetText<'a>, Text<'a>, u64, u64),
    Online(SetText<'a>),
    Offline(SetText<'a>),
    Running(SetText<'a>),
    Sleeping(SetText<'a>),
    Ready(SetText<'a>),
    Killed(SetText<'a>),
}

/// What a line says.
#[derive(Drop)]
pub enum Statement<'a> {
    /// Nothing: the line is empty, or a comment.
    Nothing,
    /// The variable is bound to the set, for the lines after it.
    Let(Text<'a>, SetText<'a>),
    /// The call is made once for each element of the set, to which the variable is bound alone.
    Each(Text<'a>, SetText<'a>, Call<'a>),
    /// The call is made.
    Once(Call<'a>),
}
