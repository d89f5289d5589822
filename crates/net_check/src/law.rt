// A law of the definitions.

ghost use Rattle.net_check.specs.Breaks.{WellFormedWhereNoneBreaks};

/// A net is well formed exactly where no part of it breaks a rule.
pub fn well_formed_where_none_breaks()
    ensures { WellFormedWhereNoneBreaks }
{}
