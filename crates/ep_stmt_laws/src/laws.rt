//! The law of typed statements.

ghost use Rattle.ep_stmt_laws.specs.Laws.{StatementsAreSound};

use ep_expr_laws::laws_of_expressions;

/// Does nothing: its contract states that the typed form of a compound statement that the static rules accept is valid
/// under all declarations that hold what the scopes declare, and the variable of the result.
pub fn laws_of_statements()
    ensures { StatementsAreSound }
{
    laws_of_expressions();
}
