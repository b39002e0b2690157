//! The walk over expressions: one function for each production, which takes its tree by reference.

ghost use Rattle.std.specs.Prelude.{◌≡◌, true, None, IfOk, map};
ghost use Rattle.std.specs.List.{list_all};
ghost use Rattle.std.specs.Option.{option_map};
ghost use Rattle.ep_built.specs.Built.{component_value_unbuilt, expression_unbuilt, simple_unbuilt, term_unbuilt, factor_unbuilt, access_unbuilt, argument_unbuilt, addend_belonging, multiplier_belonging, form_told, is_component, label_unbuilt, selector_belonging, values_unbuilt, element_unbuilt, written_unbuilt, written_value_unbuilt, lines_in, first_if, first_in};
ghost use Rattle.ep_typed.specs.Viewed.{expr_of};
ghost use Rattle.ep_scope.specs.Scopes.{depth_in, meant};
ghost use Rattle.ep_check_expr.specs.Answers.{arranged_of, choice_of, filled_of, index_of, labels_of, ranges_of};
ghost use Rattle.ep_rules.specs.Answers.{members_of, taken_of, typed_of, AnswersJudged, AnswersTyped, AnswersGiven};
ghost use Rattle.ep_rules.specs.Arguments.{IsReading, arguments_judged};
ghost use Rattle.ep_rules.specs.Constructors.{set_judged, with_label};
ghost use Rattle.ep_check_expr.specs.Expressions.{chained, components_written, element_written, labelled, judged, judged_value, addend_judged, multiplier_judged, simple_judged, term_judged, factor_judged, name_judged, selected, selected_all, given, string_judged};
ghost use Rattle.ep_rules.specs.Functions.{applied};
ghost use Rattle.ep_rules.specs.Indexing.{indexed_all};
ghost use Rattle.ep_rules.specs.Judgements.{Accepts, when_accepted};
ghost use Rattle.ep_rules.specs.Names.{call_declared, call_named};
ghost use Rattle.ep_rules.specs.Operators.{added, multiplied};
ghost use Rattle.ep_check_expr.specs.StructuredValues.{array_begun, array_element, array_elements, array_judged, index_judged, labels_judged, no_ranges, range_labelled, ranges_labelled, record_element, record_elements, record_judged, structure_judged, values_chosen, values_filled};

use crate::arranged::{Arranged, Index, IndexLabels, Ranges, taken_index};
use crate::chosen::Choice;
use crate::filled::{Filled, asked_first, label_places};
use crate::shapes::{arguments_first, bare, field_first, single_label};
use crate::structured::{asked_by, named_number};
use ep_base::{Boxed, Name};
use ep_rules::{
    Members, Refusal, Taken, Typed, added, applied_to_one, applied_to_two, compared, designated,
    indexed, multiplied, named, negated, qualified, signed, takes, undeclared,
};
use ep_scope::{
    ArrayType, Composition, Declaration, Declared, FieldTypes, FormalParameter, Function, Host,
    Meaning, Required, View, depth_in, meaning_of, rule, structure_of,
};
use ep_tree::{
    Access, Addend, Argument, ComponentValue, Element, Expression, Factor, Label, Multiplier,
    Selector, Simple, Term, Values,
};
use std::alloc::Global;

/// The typed form of an expression, or a rule that fails in it. The forms of the expression are all built.
///
/// `expr = simple [ relational-operator simple ]`
#[cycle(typed)]
pub fn typed_expression(
    alloc: Global,
    tree: &Expression,
    scopes: &View<'_>,
) -> Result<Typed, Refusal>
    requires built { expression_unbuilt tree.now ≡ None }
    ensures typed { AnswersTyped result (judged scopes.now tree.now) }
{
    let left = simple(alloc, &tree.left, scopes)?;
    match &tree.right {
        None => Ok(left),
        Some(comparison) => {
            let right = simple(alloc, &comparison.get().right, scopes)?;
            compared(alloc, comparison.get().operator, left, right)
        }
    }
}

/// The typed form of what is written or given, which may be a character string of any length, or a rule that fails in it.
/// The forms of the expression are otherwise all built.
#[cycle(typed)]
pub fn written_expression(
    alloc: Global,
    tree: &Expression,
    scopes: &View<'_>,
) -> Result<Typed, Refusal>
    requires { written_value_unbuilt tree.now ≡ None }
    ensures typed { AnswersTyped result (judged scopes.now tree.now) }
{
    match bare(tree) {
        Some(Factor::Text(_, bytes)) => string(alloc, bytes.items()),
        _ => typed_expression(alloc, tree, scopes),
    }
}

/// The typed form of a value that is assigned or defined, or a rule that fails in it. The forms of the value are all built.
///
/// `cvalue = expr | "[" values "]"`
#[cycle(typed)]
pub fn typed_value(
    alloc: Global,
    tree: &ComponentValue,
    asked: Option<u32>,
    scopes: &View<'_>,
) -> Result<Typed, Refusal>
    requires { component_value_unbuilt tree.now ≡ None }
    ensures typed { AnswersTyped result (judged_value scopes.now tree.now asked) }
{
    match tree {
        ComponentValue::Expression(e) => typed_expression(alloc, e.get(), scopes),
        ComponentValue::Bracketed(_, values) => match asked {
            Some(number) => structured(alloc, number, values.get(), scopes),
            None => Err(Refusal::Rule(rule::STRUCTURED_VALUE)),
        },
    }
}

/// `"[" values "]"`, of the structured type of this number
#[inline(never)]
#[cycle(typed)]
fn structured(
    alloc: Global,
    number: u32,
    values: &Values,
    scopes: &View<'_>,
) -> Result<Typed, Refusal>
    requires built { values_unbuilt values.now ≡ None }
    ensures { AnswersTyped result (structure_judged scopes.now (components_written scopes.now values.now) number) }
{
    match structure_of(scopes, number) {
        Some(Composition::Array(of)) => array(alloc, number, *of, values, scopes),
        Some(Composition::Record(fields)) => record(alloc, number, fields, values, scopes),
        None => Err(Refusal::Rule(rule::STRUCTURED_VALUE)),
    }
}

/// `values`, of an array
#[inline(never)]
#[cycle(typed)]
fn array(
    alloc: Global,
    number: u32,
    of: ArrayType,
    values: &Values,
    scopes: &View<'_>,
) -> Result<Typed, Refusal>
    requires built { values_unbuilt values.now ≡ None }
    ensures { AnswersTyped result (array_judged number of (components_written scopes.now values.now)) }
{
    let begun = array_begun(alloc, of, values, scopes)?;
    let all = with_elements(alloc, of, values.elements.items(), begun, scopes)?;
    all.finished(alloc, number, of, values.otherwise.is_some())
}

/// `[ "otherwise" cvalue ]`, of an array, which gives all components a value
#[cycle(typed)]
fn array_begun(
    alloc: Global,
    of: ArrayType,
    values: &Values,
    scopes: &View<'_>,
) -> Result<Arranged, Refusal>
    requires built { values_unbuilt values.now ≡ None }
    ensures { AnswersJudged arranged_of result
        (array_begun of (components_written scopes.now values.now).otherwise) }
{
    match &values.otherwise {
        None => Ok(Arranged::nothing(alloc)),
        Some(value) => {
            let value = typed_value(alloc, value.get(), asked_by(of.kind), scopes)?;
            Arranged::all(alloc, of, value)
        }
    }
}

/// `element { ";" element }`, of an array
#[cycle(typed)]
fn with_elements(
    alloc: Global,
    of: ArrayType,
    elements: &[Element],
    before: Arranged,
    scopes: &View<'_>,
) -> Result<Arranged, Refusal>
    requires built { first_in (map element_unbuilt elements.now) ≡ None }
    ensures { AnswersJudged arranged_of result
        (array_elements of (map (element_written scopes.now) elements.now) (arranged_of before)) }
{
    let mut arranged = before;
    for element in elements {
        arranged = with_element(alloc, of, element, arranged, scopes)?;
    }
    Ok(arranged)
}

/// `element`, of an array, after those before it
#[cycle(typed)]
fn with_element(
    alloc: Global,
    of: ArrayType,
    element: &Element,
    before: Arranged,
    scopes: &View<'_>,
) -> Result<Arranged, Refusal>
    requires built { element_unbuilt element.now ≡ None }
    ensures { AnswersJudged arranged_of result
        (array_element of (element_written scopes.now element.now) (arranged_of before)) }
{
    match element {
        Element::Labelled(_, labels, value) => {
            let labels = index_labels(alloc, of, labels.items(), scopes)?;
            let value = typed_value(alloc, value, asked_by(of.kind), scopes)?;
            labels.given(alloc, of, before, value)
        }
        Element::Variant(_, _, _, _) => Err(Refusal::Rule(rule::STRUCTURED_VALUE)),
    }
}

/// `label { "," label }`, of an element of an array
#[cycle(typed)]
fn index_labels(
    alloc: Global,
    of: ArrayType,
    labels: &[Label],
    scopes: &View<'_>,
) -> Result<IndexLabels, Refusal>
    requires built { first_in (map label_unbuilt labels.now) ≡ None }
    ensures { AnswersJudged labels_of result (labels_judged of (map (labelled scopes.now) labels.now)) }
{
    match single_label(labels) {
        Some(low) => {
            let index = array_index(alloc, of, low, scopes)?;
            Ok(IndexLabels::One(index))
        }
        None => {
            let ranges = ranges(alloc, of, labels, scopes)?;
            Ok(IndexLabels::Many(ranges))
        }
    }
}

/// `expr`, an index of an array
#[cycle(typed)]
fn array_index(
    alloc: Global,
    of: ArrayType,
    tree: &Expression,
    scopes: &View<'_>,
) -> Result<Index, Refusal>
    requires built { expression_unbuilt tree.now ≡ None }
    ensures { AnswersJudged index_of result (when_accepted (index_judged of) (judged scopes.now tree.now)) }
{
    let value = typed_expression(alloc, tree, scopes)?;
    taken_index(alloc, of, value)
}

/// `label { "," label }`, of indexes
#[cycle(typed)]
fn ranges(
    alloc: Global,
    of: ArrayType,
    labels: &[Label],
    scopes: &View<'_>,
) -> Result<Ranges, Refusal>
    requires built { first_in (map label_unbuilt labels.now) ≡ None }
    ensures { AnswersJudged ranges_of result
        (ranges_labelled of (map (labelled scopes.now) labels.now) no_ranges) }
{
    let mut ranges = Ranges::nothing(alloc);
    for label in labels {
        ranges = with_range(alloc, of, label, ranges, scopes)?;
    }
    Ok(ranges)
}

/// `label`, of indexes, after those before it
#[cycle(typed)]
fn with_range(
    alloc: Global,
    of: ArrayType,
    label: &Label,
    before: Ranges,
    scopes: &View<'_>,
) -> Result<Ranges, Refusal>
    requires built { label_unbuilt label.now ≡ None }
    ensures { AnswersJudged ranges_of result
        (range_labelled of (labelled scopes.now label.now) (ranges_of before)) }
{
    let low = array_index(alloc, of, label.low.get(), scopes)?;
    match &label.high {
        None => Ok(before.with_single(low)?),
        Some(last) => {
            let high = array_index(alloc, of, last.get(), scopes)?;
            Ok(before.with_range(low, high)?)
        }
    }
}

/// `values`, of a record
#[inline(never)]
#[cycle(typed)]
fn record(
    alloc: Global,
    number: u32,
    fields: &FieldTypes,
    values: &Values,
    scopes: &View<'_>,
) -> Result<Typed, Refusal>
    requires built { values_unbuilt values.now ≡ None }
    ensures { AnswersTyped result (record_judged number fields.now (components_written scopes.now values.now)) }
{
    let all = values_filled(alloc, fields, &[], values, Filled::nothing(alloc), scopes)?;
    all.finished(alloc, number)
}

/// `values`, of a record or of a variant in it, which has no `otherwise`
#[cycle(typed)]
fn values_filled(
    alloc: Global,
    fields: &FieldTypes,
    within: &[usize],
    values: &Values,
    before: Filled,
    scopes: &View<'_>,
) -> Result<Filled, Refusal>
    requires built { values_unbuilt values.now ≡ None }
    ensures { AnswersJudged filled_of result
        (values_filled fields.now within.now (components_written scopes.now values.now) (filled_of before)) }
{
    if values.otherwise.is_some() {
        return Err(Refusal::Rule(rule::STRUCTURED_VALUE));
    }
    let all = record_elements(
        alloc,
        fields,
        within,
        values.elements.items(),
        before,
        scopes,
    )?;
    all.with_all(fields.items(), within)
}

/// `element { ";" element }`, of a record or of a variant in it, after those before it
#[cycle(typed)]
fn record_elements(
    alloc: Global,
    fields: &FieldTypes,
    within: &[usize],
    elements: &[Element],
    before: Filled,
    scopes: &View<'_>,
) -> Result<Filled, Refusal>
    requires built { first_in (map element_unbuilt elements.now) ≡ None }
    ensures { AnswersJudged filled_of result
        (record_elements fields.now within.now (map (element_written scopes.now) elements.now) (filled_of before)) }
{
    let mut filled = before;
    for element in elements {
        filled = with_fields(alloc, fields, within, element, filled, scopes)?;
    }
    Ok(filled)
}

/// `element`, of a record or of a variant in it, after those before it
#[cycle(typed)]
fn with_fields(
    alloc: Global,
    fields: &FieldTypes,
    within: &[usize],
    element: &Element,
    before: Filled,
    scopes: &View<'_>,
) -> Result<Filled, Refusal>
    requires built { element_unbuilt element.now ≡ None }
    ensures { AnswersJudged filled_of result
        (record_element fields.now within.now (element_written scopes.now element.now) (filled_of before)) }
{
    match element {
        Element::Labelled(_, labels, value) => {
            let places = label_places(alloc, fields, within, labels.items())?;
            let asked = asked_first(fields.items(), places.items());
            let value = typed_value(alloc, value, asked, scopes)?;
            before.with_fields(alloc, fields.items(), places.items(), value)
        }
        Element::Variant(_, name, tag, values) => {
            let tag = typed_expression(alloc, tag.get(), scopes)?;
            let choice = before.choosing(alloc, fields.items(), within, name, tag)?;
            values_chosen(alloc, fields, choice, values, scopes)
        }
    }
}

/// `[ values ]`, of a variant that is chosen
#[cycle(typed)]
fn values_chosen(
    alloc: Global,
    fields: &FieldTypes,
    choice: Choice,
    values: &Option<Boxed<Values>>,
    scopes: &View<'_>,
) -> Result<Filled, Refusal>
    requires built { first_if (option_map values_unbuilt values.now) ≡ None }
    ensures { AnswersJudged filled_of result
        (values_chosen fields.now (option_map (components_written scopes.now) values.now) (choice_of choice)) }
{
    let (filled, within) = choice.into_parts();
    let Some(within) = within else {
        return Ok(filled);
    };
    match values {
        None => filled.with_all(fields.items(), within.items()),
        Some(values) => values_filled(alloc, fields, within.items(), values.get(), filled, scopes),
    }
}

/// The typed form of an access, as that of what is assigned to, or a rule that fails in it. The forms of the access are all
/// built. Where it is a variable, it is read of a place.
pub fn typed_access(alloc: Global, tree: &Access, scopes: &View<'_>) -> Result<Typed, Refusal>
    requires { access_unbuilt tree.now ≡ None }
    ensures typed { AnswersTyped result (name_judged scopes.now tree.now) }
    ensures read { IfOk result (λ t. IsReading t.access (option_map expr_of t.form)) }
{
    access(alloc, tree, scopes)
}

/// `simple = [ sign ] term { adding-operator term }`
#[cycle(typed)]
fn simple(alloc: Global, s: &Simple, scopes: &View<'_>) -> Result<Typed, Refusal>
    requires built { simple_unbuilt s.now ≡ None }
    ensures { AnswersTyped result (simple_judged scopes.now s.now) }
{
    let first = term(alloc, &s.first, scopes)?;
    let sum = signed(alloc, s.sign, first)?;
    addends(alloc, sum, s.more.items(), scopes)
}

/// `{ adding-operator term }`, after the terms before it
#[inline(never)]
#[cycle(typed)]
fn addends(alloc: Global, first: Typed, all: &[Addend], scopes: &View<'_>) -> Result<Typed, Refusal>
    requires operands { lines_in (map addend_belonging all.now) ≡ None }
    ensures { AnswersTyped result (chained added (Accepts (typed_of first)) (map (addend_judged scopes.now) all.now)) }
{
    let mut sum = first;
    for addend in all {
        let right = term(alloc, &addend.term, scopes)?;
        sum = added(alloc, addend.operator, sum, right)?;
    }
    Ok(sum)
}

/// `term = factor { multiplying-operator factor }`
#[cycle(typed)]
fn term(alloc: Global, t: &Term, scopes: &View<'_>) -> Result<Typed, Refusal>
    requires built { term_unbuilt t.now ≡ None }
    ensures { AnswersTyped result (term_judged scopes.now t.now) }
{
    let first = factor(alloc, t.first.get(), scopes)?;
    multipliers(alloc, first, t.more.items(), scopes)
}

/// `{ multiplying-operator factor }`, after the factors before it
#[inline(never)]
#[cycle(typed)]
fn multipliers(
    alloc: Global,
    first: Typed,
    all: &[Multiplier],
    scopes: &View<'_>,
) -> Result<Typed, Refusal>
    requires operands { lines_in (map multiplier_belonging all.now) ≡ None }
    ensures { AnswersTyped result (chained multiplied (Accepts (typed_of first))
        (map (multiplier_judged scopes.now) all.now)) }
{
    let mut product = first;
    for multiplier in all {
        let right = factor(alloc, multiplier.factor.get(), scopes)?;
        product = multiplied(alloc, multiplier.operator, product, right)?;
    }
    Ok(product)
}

/// `factor`
#[cycle(typed)]
fn factor(alloc: Global, f: &Factor, scopes: &View<'_>) -> Result<Typed, Refusal>
    requires built { factor_unbuilt f.now ≡ None }
    ensures { AnswersTyped result (factor_judged scopes.now f.now) }
{
    match f {
        Factor::Access(a) => access(alloc, a, scopes),
        Factor::Number(_, number) => Typed::spelled(alloc, *number, Host::Integer),
        Factor::Text(_, bytes) => string(alloc, bytes.items()),
        Factor::Parenthesized(_, inner) => {
            let value = typed_expression(alloc, inner.get(), scopes)?;
            Ok(value.parenthesized())
        }
        Factor::Not(_, inner) => {
            let operand = factor(alloc, inner.get(), scopes)?;
            negated(alloc, operand)
        }
        Factor::Nil(_) => unreachable!(),
        Factor::Set(_, labels) => set(alloc, labels.items(), scopes),
        Factor::Structured(_, name, values) => {
            let number = named_number(name, scopes)?;
            structured(alloc, number, values.get(), scopes)
        }
    }
}

/// `"[" [ label { "," label } ] "]"`
#[inline(never)]
#[cycle(typed)]
fn set(alloc: Global, all: &[Label], scopes: &View<'_>) -> Result<Typed, Refusal>
    requires built { first_in (map label_unbuilt all.now) ≡ None }
    ensures { AnswersTyped result (set_judged (map (labelled scopes.now) all.now)) }
{
    let mut members = Members::nothing(alloc);
    for label in all {
        members = with_label(alloc, members, label, scopes)?;
    }
    members.constructed(alloc)
}

/// `label`, after those before it
#[inline(never)]
#[cycle(typed)]
fn with_label(
    alloc: Global,
    before: Members,
    label: &Label,
    scopes: &View<'_>,
) -> Result<Members, Refusal>
    requires built { label_unbuilt label.now ≡ None }
    ensures { AnswersJudged members_of result
        (with_label (Accepts (members_of before)) (labelled scopes.now label.now)) }
{
    let low = typed_expression(alloc, label.low.get(), scopes)?;
    match &label.high {
        None => before.with_single(low),
        Some(last) => {
            let high = typed_expression(alloc, last.get(), scopes)?;
            before.with_range(low, high)
        }
    }
}

/// A character string.
#[inline(never)]
pub(crate) fn string(alloc: Global, bytes: &[u8]) -> Result<Typed, Refusal>
    ensures { AnswersTyped result (string_judged bytes.now) }
{
    match bytes {
        [byte] => Typed::spelled(alloc, *byte as i64, Host::Char),
        _ => Typed::text(alloc, bytes),
    }
}

/// `access`, which is a name, alone or called, with indexes and fields or without
#[cycle(typed)]
fn access(alloc: Global, a: &Access, scopes: &View<'_>) -> Result<Typed, Refusal>
    requires built { access_unbuilt a.now ≡ None }
    ensures { AnswersTyped result (name_judged scopes.now a.now) }
{
    if let Some((arguments, more)) = arguments_first(a.selectors.items()) {
        let value = call(alloc, &a.name, arguments, scopes)?;
        return selected(alloc, value, more, scopes);
    }
    match field_first(a.selectors.items()) {
        Some((field, more)) => {
            let variable = qualified(alloc, &a.name, field, scopes)?;
            selected(alloc, variable, more, scopes)
        }
        None => {
            let variable = named(alloc, &a.name, scopes)?;
            selected(alloc, variable, a.selectors.items(), scopes)
        }
    }
}

/// `{ "[" expr { "," expr } "]" | "." id }`, after what has these indexes and fields
#[inline(never)]
#[cycle(typed)]
fn selected(
    alloc: Global,
    first: Typed,
    all: &[Selector],
    scopes: &View<'_>,
) -> Result<Typed, Refusal>
    requires selectors { list_all is_component (map form_told (map selector_belonging all.now)) ≡ true }
    requires built { lines_in (map selector_belonging all.now) ≡ None }
    ensures { AnswersTyped result
        (selected_all scopes.now (Accepts (typed_of first)) (map (selected scopes.now) all.now)) }
{
    let mut variable = first;
    for selector in all {
        variable = match selector {
            Selector::Index(_, indexes) => with_indexes(alloc, variable, indexes.items(), scopes)?,
            Selector::Field(_, name) => designated(alloc, name, variable, scopes)?,
            _ => unreachable!(),
        };
    }
    Ok(variable)
}

/// `expr { "," expr }` in brackets, after what has these indexes
#[inline(never)]
#[cycle(typed)]
fn with_indexes(
    alloc: Global,
    first: Typed,
    all: &[Expression],
    scopes: &View<'_>,
) -> Result<Typed, Refusal>
    requires built { first_in (map expression_unbuilt all.now) ≡ None }
    ensures { AnswersTyped result
        (indexed_all scopes.now (Accepts (typed_of first)) (map (judged scopes.now) all.now)) }
{
    let mut variable = first;
    for expression in all {
        let index = typed_expression(alloc, expression, scopes)?;
        variable = indexed(alloc, variable, index, scopes)?;
    }
    Ok(variable)
}

/// `id "(" arg { "," arg } ")"`
#[inline(never)]
#[cycle(typed)]
fn call(
    alloc: Global,
    name: &Name,
    arguments: &[Argument],
    scopes: &View<'_>,
) -> Result<Typed, Refusal>
    requires built { first_in (map argument_unbuilt arguments.now) ≡ None }
    ensures { AnswersTyped result (call_named (depth_in scopes.now) name.now
        (meant scopes.now name.now) (map (given scopes.now) arguments.now)) }
{
    match meaning_of(scopes, name) {
        Meaning::Required(Required::Function(function)) => {
            application(alloc, function, arguments, scopes)
        }
        Meaning::Required(Required::Procedure(_)) => Err(Refusal::Rule(rule::PROCEDURE)),
        Meaning::Required(_) => Err(Refusal::Rule(rule::OTHER_THING)),
        Meaning::Declared(declared) => designator(alloc, declared, arguments, scopes),
        Meaning::Standard(_) => Err(Refusal::Rule(rule::OTHER_THING)),
        Meaning::Field(_) => Err(Refusal::Rule(rule::OTHER_THING)),
        Meaning::Nothing => Err(Refusal::Rule(undeclared(name))),
    }
}

/// A call of a required function.
#[inline(never)]
#[cycle(typed)]
fn application(
    alloc: Global,
    function: Function,
    arguments: &[Argument],
    scopes: &View<'_>,
) -> Result<Typed, Refusal>
    requires built { first_in (map written_unbuilt arguments.now) ≡ None }
    ensures { AnswersTyped result (applied function (map (given scopes.now) arguments.now)) }
{
    if !takes(function, arguments.len()) {
        return Err(Refusal::Rule(rule::ARGUMENTS));
    }
    match arguments {
        [one] => {
            let x = argument(alloc, one, scopes)?;
            applied_to_one(alloc, function, x)
        }
        [one, two] => {
            let x = argument(alloc, one, scopes)?;
            let y = argument(alloc, two, scopes)?;
            applied_to_two(alloc, function, x, y)
        }
        _ => unreachable!(),
    }
}

/// What is declared, called with arguments (ISO 10206, 6.8.5).
#[inline(never)]
#[cycle(typed)]
fn designator(
    alloc: Global,
    declared: &Declared,
    arguments: &[Argument],
    scopes: &View<'_>,
) -> Result<Typed, Refusal>
    requires built { first_in (map written_unbuilt arguments.now) ≡ None }
    ensures { AnswersTyped result
        (call_declared (depth_in scopes.now) declared.now declared.now.what
        (map (given scopes.now) arguments.now)) }
{
    match &declared.what {
        Declaration::Function(parameters, _, kind) => {
            let given = typed_arguments(alloc, parameters.items(), arguments, scopes)?;
            Typed::function(alloc, depth_in(scopes)?, declared, *kind, given)
        }
        Declaration::Procedure(_) => Err(Refusal::Rule(rule::PROCEDURE)),
        _ => Err(Refusal::Rule(rule::OTHER_THING)),
    }
}

/// What is given for the formal parameters of a procedure or function of a unit, or a rule that fails in it. The forms of
/// the arguments are all built, but for character strings.
///
/// `arg { "," arg }`
#[cycle(typed)]
pub fn typed_arguments(
    alloc: Global,
    parameters: &[FormalParameter],
    arguments: &[Argument],
    scopes: &View<'_>,
) -> Result<Taken, Refusal>
    requires built { first_in (map written_unbuilt arguments.now) ≡ None }
    ensures taken { AnswersJudged taken_of result
        (arguments_judged parameters.now (map (given scopes.now) arguments.now)) }
{
    if parameters.len() != arguments.len() {
        return Err(Refusal::Rule(rule::ARGUMENTS));
    }
    let mut taken = Taken::nothing(alloc);
    for (place, one) in arguments.iter().enumerate() {
        let parameter = &parameters[place];
        let value = argument(alloc, one, scopes)?;
        taken = taken.with(parameter, value)?;
    }
    Ok(taken)
}

/// `arg`, which is not written
#[cycle(typed)]
fn argument(alloc: Global, a: &Argument, scopes: &View<'_>) -> Result<Typed, Refusal>
    requires built { written_unbuilt a.now ≡ None }
    ensures { AnswersGiven result (given scopes.now a.now) }
{
    if a.width.is_some() {
        return Err(Refusal::Rule(rule::WIDTH));
    }
    written_expression(alloc, a.value.get(), scopes)
}
