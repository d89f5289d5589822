// The law of the profile. The function takes and answers nothing: its contract is the law.

ghost use Rattle.c_profile.specs.Laws.{AcceptedOnce, EachHasAnswer, NeverBoth, RefusedOnce};

/// Each text has one answer: it is accepted or refused, and not both; it is accepted as one program, with one weight, and refused for
/// one reason, at one place.
pub fn has_one_answer()
    ensures has_answer { EachHasAnswer }
    ensures never_both { NeverBoth }
    ensures accepted_once { AcceptedOnce }
    ensures refused_once { RefusedOnce }
{}
