//! Which kind of reasons a constraint gives, by its form.
ghost use Rattle.std.specs.Prelude.{◌≡◌};
ghost use Rattle.rule_constraint.specs.Prelude.{form_seen, kind_of as the_kind_of, reason_kind as the_reason_kind};

use rule_frame::{Constraint, Form, ReasonKind, form_of};

// the kind of the reasons that constraints of a form give
fn kind_of(form: &Form) -> Option<ReasonKind>
    ensures { result ≡ the_kind_of (form_seen form.now) }
{
    match form {
        Form::Apart(_) => Some(ReasonKind::Pair),
        Form::Allowed(..) => Some(ReasonKind::Place),
        Form::Together(..) | Form::Ordered(..) | Form::InTurn(_) => Some(ReasonKind::Group),
        Form::Bounded(..) => Some(ReasonKind::SetLoad),
        Form::Powered(..) => Some(ReasonKind::Power),
        Form::Settled => None,
    }
}

/// The kind of the reasons that a constraint gives where it is broken. `None` where it is part of the
/// demand, of the capacity or of the legal choices, so that no region that is legal breaks it.
pub fn reason_kind(constraint: &Constraint) -> Option<ReasonKind>
    ensures { result ≡ the_reason_kind constraint.now }
{
    kind_of(&form_of(constraint))
}
