//! A lock discipline of programs with POSIX threads, and what it gives: no two threads of a disciplined program race. Each
//! function takes and answers nothing: its contract is the law.
#![tactic(auto)]

ghost use Rattle.lock_discipline.specs.Calm.{DisciplinedIsCalm, DisciplinedIsGood, NoneTooDeep};

/// A disciplined program never races.
pub fn disciplined_is_calm()
    ensures { DisciplinedIsCalm }
{}

/// One of which no step is undefined is good.
pub fn disciplined_is_good()
    ensures { DisciplinedIsGood }
{}

/// No walk of a resolved program meets a call that is deeper than there are functions, so each doubt is about a call that creates or
/// joins, or about a global.
pub fn none_too_deep()
    ensures { NoneTooDeep }
{}
