//! What is answered of a whole problem.
use slices::Plan;

/// What is said of a whole problem by what is found of its parts.
#[derive(Drop)]
pub enum WholeAnswer {
    /// The part of that number, the first such one, has no valid plan, so the whole has none.
    Infeasible(usize),
    /// No part is known to be infeasible; of the part of that number, the first such one, no valid plan was met.
    Unmet(usize),
    /// The union of optimal plans of all parts. It is optimal.
    Optimal(Plan),
    /// The union of valid plans of all parts, which are not all known to be optimal. It is valid.
    Valid(Plan),
}

/// An answer, with the text of the certificates that show it: of one part, or of all parts in order.
#[derive(Drop)]
pub struct PartsAnswer {
    /// What is said of the whole.
    pub whole: WholeAnswer,
    /// The bytes of the certificates, each after the line that names its part.
    pub certificate: Vec<u8>,
}
