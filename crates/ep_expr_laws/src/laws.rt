//! The laws of typed forms.

ghost use Rattle.ep_expr_laws.specs.Laws.{ExpressionsAreSound, AccessesAreSound, VariablesAreSound, ArgumentsAreSound, ValuesAreSound, ConstantsAreSound, BoundsAreSound, LabelsAreSound, InitialStatesAreSound, ExpressionsAreKnown, ConstantsAreKnown, BoundsAreKnown};

/// Does nothing: its contract states that what the rules accept is valid. The typed form of an expression and of a
/// value that they accept is a valid form of its kind, a constant, a bound and a label that they accept is a value of its
/// kind, and an initial state may be one of a type of its kind, under all declarations that hold what the scopes declare.
/// An expression or an access that is a variable is read of a variable of its type, and arguments are valid for the formal
/// parameters that they are given for.
/// The host of each is a required type or that of something that the scopes declare.
pub fn laws_of_expressions()
    ensures expressions { ExpressionsAreSound }
    ensures accesses { AccessesAreSound }
    ensures variables { VariablesAreSound }
    ensures arguments { ArgumentsAreSound }
    ensures values { ValuesAreSound }
    ensures constants { ConstantsAreSound }
    ensures bounds { BoundsAreSound }
    ensures labels { LabelsAreSound }
    ensures initial_states { InitialStatesAreSound }
    ensures hosts { ExpressionsAreKnown }
    ensures constant_hosts { ConstantsAreKnown }
    ensures bound_hosts { BoundsAreKnown }
{}
