//! The rules of structured values that hold of arrays and of records.

ghost use Rattle.std.specs.Prelude.{◌≡◌, ◌∷◌, [], IfOk, IsTrue, List, ℕ, map};
ghost use Rattle.std.specs.Option.{option_map};
ghost use Rattle.ep_scope.specs.Meanings.{meant_by};
ghost use Rattle.ep_typed.specs.Viewed.{element_of};
ghost use Rattle.ep_rules.specs.Answers.{AnswersJudged, AnswersTyped};
ghost use Rattle.ep_rules.specs.Names.{is_one_of};
ghost use Rattle.ep_check_expr.specs.StructuredValues as spec;
ghost use Rattle.ep_check_expr.specs.StructuredValues.{with_elements};

use ep_base::{Boxed, NoMemory};
use ep_rules::{Access, Refusal, Typed, above, undeclared};
use ep_scope::{Declaration, Kind, Meaning, Required, View, meaning_in, meaning_of, rule};
use ep_tree::QualifiedName;
use ep_typed::{Element, Elements, Shared, TypedExpr};
use std::alloc::Global;

/// The structured type that a value for something of this kind is to have, where it has one.
pub fn asked_by(kind: Kind) -> Option<u32>
    ensures { result ≡ spec.asked_by kind }
{
    match kind {
        Kind::Structured(number) => Some(number),
        _ => None,
    }
}

/// The number of the structured type of this kind.
fn kind_number(kind: Kind) -> Result<u32, Refusal>
    ensures { AnswersJudged (λ n. n) result (spec.kind_number kind) }
{
    match kind {
        Kind::Structured(number) => Ok(number),
        _ => Err(Refusal::Rule(rule::STRUCTURED_VALUE)),
    }
}

/// The number of the structured type that a name means. Without a meaning the rule `missing` fails.
fn meant_number(missing: u32, meaning: Meaning<'_>) -> Result<u32, Refusal>
    ensures { (rules : List ℕ) → IsTrue (is_one_of missing rules)
        → AnswersJudged (λ n. n) result (spec.meant_number rules (meant_by meaning.entry)) }
{
    match meaning {
        Meaning::Declared(declared) => match &declared.what {
            Declaration::Type(_, kind, _) => kind_number(*kind),
            _ => Err(Refusal::Rule(rule::OTHER_THING)),
        },
        Meaning::Required(Required::Type(_)) => Err(Refusal::Rule(rule::STRUCTURED_VALUE)),
        Meaning::Nothing => Err(Refusal::Rule(missing)),
        _ => Err(Refusal::Rule(rule::OTHER_THING)),
    }
}

/// The number of the structured type of this name.
pub(crate) fn named_number(name: &QualifiedName, scopes: &View<'_>) -> Result<u32, Refusal>
    ensures { AnswersJudged (λ n. n) result (spec.named_number scopes.now name.now.first name.now.second) }
{
    match &name.second {
        None => meant_number(undeclared(&name.first), meaning_of(scopes, &name.first)),
        Some(constituent) => {
            let meaning = meaning_in(scopes, &name.first, constituent);
            meant_number(rule::UNDECLARED, meaning)
        }
    }
}

/// The elements with one more at the end, where all are built.
pub(crate) fn added(
    list: Option<Elements>,
    one: Option<Element>,
) -> Result<Option<Elements>, NoMemory>
    ensures { IfOk result (λ now. option_map (map element_of) now ≡ with_elements
        (option_map (map element_of) list) (option_map (λ e. e ∷ []) (option_map element_of one))) }
{
    let Some(mut list) = list else {
        return Ok(None);
    };
    let Some(one) = one else {
        return Ok(None);
    };
    list.push(one)?;
    Ok(Some(list))
}

/// A value of the structured type of this number, whose deepest part has this depth.
pub(crate) fn structured(
    alloc: Global,
    number: u32,
    elements: Option<Elements>,
    depth: u32,
) -> Result<Typed, Refusal>
    ensures { AnswersTyped result (spec.structured number (option_map (map element_of) elements) depth) }
{
    let depth = above(depth)?;
    let form = match elements {
        None => None,
        Some(elements) => {
            let elements = Shared::new(alloc, elements)?;
            Some(Boxed::new(alloc, TypedExpr::Structured(number, elements))?)
        }
    };
    Ok(Typed {
        form,
        kind: Kind::Structured(number),
        depth,
        access: Access::Value,
    })
}
