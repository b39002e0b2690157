//! The static rules of statements: the walk over the statements of a block.
//!
//! Promise: `Context::compound` answers the typed form of the statements of a block, or the first item of them that
//! breaks a rule, as specs/Statements.antt of ep_stmt_rules says. It stands on the rules of their parts, which are that
//! crate, and on ep_check_expr, whose forms statements hold, and knows of the block only what `Context` has
//! (specs/Contexts.antt). That what it accepts is valid is ep_stmt_laws.
//! To change a statement's rule: specs/Statements.antt of ep_stmt_rules, and src/statements.rt here where it is about
//! statements in it or about all that a block knows.
#![tactic(auto)]

mod statements;

pub use statements::Context;
