//! Typed forms under construction.

ghost use Rattle.std.specs.Prelude.{◌≡◌, IfOk, IsTrue, None, Some};
ghost use Rattle.std.specs.Option.{option_map};
ghost use Rattle.ep_typed.specs.Trees.{Constant};
ghost use Rattle.ep_scope.specs.declared.kind.Kind.TheVariants as kind;
ghost use Rattle.ep_rules.specs.Answers.{taken_of, typed_of, AnswersTyped, AnswersDepth};
ghost use Rattle.ep_rules.specs.Arguments.{IsReadingIf, IsTagReadingIf, callee_at, function_typed, place_read, tagged_read};
ghost use Rattle.ep_rules.specs.Names.{spelled, constant_typed, leaf, parenthesized, reading};
ghost use Rattle.ep_rules.specs.Operators.{unary_typed, binary_typed, on_sets_typed, short_typed, unbuilt_typed};
ghost use Rattle.ep_rules.specs.Functions.{card_typed, step_typed};
ghost use Rattle.ep_rules.specs.declared.access.Access.TheVariants as access;
ghost use Rattle.ep_rules.specs.Hosts.{typed_host};
ghost use Rattle.ep_typed.specs.Hosts as hosts;
ghost use Rattle.ep_rules.specs.declared.forms.Refusal.TheVariants.{NoMemory};
ghost use Rattle.ep_typed.specs.Viewed.{constant_expr, expr_of, place_of};
ghost use Rattle.ep_typed.specs.Trees.{Read, Text};

use crate::access::Access;
use crate::arguments::Taken;
use crate::levels::callee_at;
use ep_base::{Boxed, Bytes, NoMemory};
use ep_scope::{Declared, Host, Kind, rule};
use ep_typed::{TypedExpr, TypedPlace, Value};
use ep_values::{Binary, SetOperation, ShortOperation, Unary};
use std::alloc::{AllocError, Global};

/// The greatest number of typed nodes of an expression that stand one below the other.
pub const DEPTH: u32 = 1000;

/// An expression that is accepted: its typed form, where it is built, its kind, how many typed nodes of it stand one below
/// the other, and what it is the bare name of.
pub struct Typed {
    /// The typed form.
    pub form: Option<Boxed<TypedExpr>>,
    /// The kind.
    pub kind: Kind,
    /// The depth.
    pub depth: u32,
    /// What it is the bare name of.
    pub access: Access,
}

impl Drop for Typed {
    fn drop(self) {
        let Typed {
            form: _,
            kind: _,
            depth: _,
            access: _,
        } = self;
    }
}

/// Why an expression is not accepted.
#[derive(Clone, Copy, Drop)]
pub enum Refusal {
    /// The static rule of this number fails.
    Rule(u32),
    /// Memory is wanting.
    NoMemory,
}

impl From<AllocError> for Refusal {
    ghost from_gives = { λ _ e. e ≡ NoMemory };

    fn from(_e: AllocError) -> Refusal {
        Refusal::NoMemory
    }
}

/// The depth of a form whose parts have this one.
pub fn above(depth: u32) -> Result<u32, Refusal>
    ensures { AnswersDepth depth result }
{
    if depth < DEPTH {
        Ok(depth + 1)
    } else {
        Err(Refusal::Rule(rule::TOO_DEEP))
    }
}

impl Typed {
    /// The typed form alone.
    pub fn into_form(self) -> Option<Boxed<TypedExpr>>
        ensures { result ≡ self.form }
    {
        let Typed {
            form,
            kind: _,
            depth: _,
            access: _,
        } = self;
        form
    }

    /// The place that is read, where the form is built.
    pub fn into_place(self) -> Option<TypedPlace>
        requires { IsReadingIf (option_map expr_of self.form) }
        ensures { option_map place_of result ≡ place_read (option_map expr_of self.form) }
    {
        let form = self.into_form()?;
        match form.into_inner() {
            TypedExpr::Read(place) => Some(place),
            _ => unreachable!(),
        }
    }

    /// The place of the record whose tag is read, where the form is built.
    pub fn into_tagged(self) -> Option<TypedPlace>
        requires { IsTagReadingIf (option_map expr_of self.form) }
        ensures { option_map place_of result ≡ tagged_read (option_map expr_of self.form) }
    {
        let form = self.into_form()?;
        match form.into_inner() {
            TypedExpr::Read(TypedPlace::Field(own, _)) => match own.into_inner() {
                TypedPlace::Field(whole, _) => Some(whole.into_inner()),
                _ => unreachable!(),
            },
            _ => unreachable!(),
        }
    }

    /// The same in parentheses, which is a value (ISO 10206, 6.5.1).
    pub fn parenthesized(self) -> Typed
        ensures { typed_of result ≡ parenthesized (typed_of self) }
    {
        let kind = self.kind;
        let depth = self.depth;
        Typed {
            form: self.into_form(),
            kind,
            depth,
            access: Access::Value,
        }
    }

    /// A form without parts.
    fn leaf(alloc: Global, form: TypedExpr, kind: Kind, access: Access) -> Result<Typed, Refusal>
        ensures { AnswersTyped result (leaf (expr_of form) kind access) }
    {
        let form = Some(Boxed::new(alloc, form)?);
        Ok(Typed {
            form,
            kind,
            depth: 1,
            access,
        })
    }

    /// A value of an ordinal type.
    pub(crate) fn constant(
        alloc: Global,
        value: i64,
        kind: Kind,
        access: Access,
    ) -> Result<Typed, Refusal>
        ensures { AnswersTyped result (leaf (Constant value) kind access) }
    {
        Typed::leaf(alloc, TypedExpr::Constant(value), kind, access)
    }

    /// A number or a character as the text spells it.
    #[inline(never)]
    pub fn spelled(alloc: Global, value: i64, host: Host) -> Result<Typed, Refusal>
        requires { IsTrue (hosts.is_of_host (typed_host host) value) }
        ensures { AnswersTyped result (spelled host value) }
    {
        Typed::constant(alloc, value, Kind::Ordinal(host), Access::Value)
    }

    /// A text that is no char.
    #[inline(never)]
    pub fn text(alloc: Global, bytes: &[u8]) -> Result<Typed, Refusal>
        ensures { AnswersTyped result (leaf (Text bytes.now) kind.Text access.Value) }
    {
        let copy = Bytes::from_slice(alloc, bytes)?;
        Typed::leaf(alloc, TypedExpr::Text(copy), Kind::Text, Access::Value)
    }

    /// The value of a constant, whose form nests so deep.
    pub(crate) fn value(
        alloc: Global,
        value: &Value,
        kind: Kind,
        depth: u32,
    ) -> Result<Typed, Refusal>
        ensures { AnswersTyped result (constant_typed kind value.now depth) }
    {
        let form = Some(Boxed::new(alloc, value_form(alloc, value)?)?);
        Ok(Typed {
            form,
            kind,
            depth,
            access: Access::Constant,
        })
    }

    /// What is read of a place.
    pub(crate) fn read(
        alloc: Global,
        place: TypedPlace,
        kind: Kind,
        access: Access,
    ) -> Result<Typed, Refusal>
        ensures { AnswersTyped result (reading (Read (place_of place)) kind access) }
    {
        let form = Some(Boxed::new(alloc, TypedExpr::Read(place))?);
        Ok(Typed {
            form,
            kind,
            depth: 2,
            access,
        })
    }

    /// An operation of one operand.
    pub(crate) fn unary(
        alloc: Global,
        operation: Unary,
        kind: Kind,
        x: Typed,
    ) -> Result<Typed, Refusal>
        ensures { AnswersTyped result (unary_typed operation kind (typed_of x)) }
    {
        let depth = above(x.depth)?;
        let form = match x.into_form() {
            None => None,
            Some(operand) => Some(Boxed::new(alloc, TypedExpr::Unary(operation, operand))?),
        };
        Ok(Typed {
            form,
            kind,
            depth,
            access: Access::Value,
        })
    }

    /// An operation of two operands.
    pub(crate) fn binary(
        alloc: Global,
        operation: Binary,
        kind: Kind,
        x: Typed,
        y: Typed,
    ) -> Result<Typed, Refusal>
        ensures { AnswersTyped result (binary_typed operation kind (typed_of x) (typed_of y)) }
    {
        let depth = above(x.depth.max(y.depth))?;
        let form = match (x.into_form(), y.into_form()) {
            (Some(left), Some(right)) => {
                Some(Boxed::new(alloc, TypedExpr::Binary(operation, left, right))?)
            }
            _ => None,
        };
        Ok(Typed {
            form,
            kind,
            depth,
            access: Access::Value,
        })
    }

    /// An operation of two operands, of which the right one may not be evaluated.
    pub(crate) fn short(
        alloc: Global,
        operation: ShortOperation,
        kind: Kind,
        x: Typed,
        y: Typed,
    ) -> Result<Typed, Refusal>
        ensures { AnswersTyped result (short_typed operation kind (typed_of x) (typed_of y)) }
    {
        let depth = above(x.depth.max(y.depth))?;
        let form = match (x.into_form(), y.into_form()) {
            (Some(left), Some(right)) => {
                Some(Boxed::new(alloc, TypedExpr::Short(operation, left, right))?)
            }
            _ => None,
        };
        Ok(Typed {
            form,
            kind,
            depth,
            access: Access::Value,
        })
    }

    /// An operation of two operands of which the right one at least is a set.
    pub(crate) fn on_sets(
        alloc: Global,
        operation: SetOperation,
        kind: Kind,
        x: Typed,
        y: Typed,
    ) -> Result<Typed, Refusal>
        ensures { AnswersTyped result (on_sets_typed operation kind (typed_of x) (typed_of y)) }
    {
        let depth = above(x.depth.max(y.depth))?;
        let form = match (x.into_form(), y.into_form()) {
            (Some(left), Some(right)) => {
                Some(Boxed::new(alloc, TypedExpr::OnSets(operation, left, right))?)
            }
            _ => None,
        };
        Ok(Typed {
            form,
            kind,
            depth,
            access: Access::Value,
        })
    }

    /// How many members a set has.
    pub(crate) fn cardinality(alloc: Global, x: Typed) -> Result<Typed, Refusal>
        ensures { AnswersTyped result (card_typed (typed_of x)) }
    {
        let depth = above(x.depth)?;
        let form = match x.into_form() {
            None => None,
            Some(operand) => Some(Boxed::new(alloc, TypedExpr::Card(operand))?),
        };
        Ok(Typed {
            form,
            kind: Kind::Ordinal(Host::Integer),
            depth,
            access: Access::Value,
        })
    }

    /// A form of two operands that has no code yet.
    pub(crate) fn unbuilt(kind: Kind, x: Typed, y: Typed) -> Result<Typed, Refusal>
        ensures { AnswersTyped result (unbuilt_typed kind (typed_of x) (typed_of y)) }
    {
        let depth = above(x.depth.max(y.depth))?;
        Ok(Typed {
            form: None,
            kind,
            depth,
            access: Access::Value,
        })
    }

    /// A call of a function, whose result is of this kind, in code of a depth. It is built where that is ordinal, structured or a set.
    #[inline(never)]
    pub fn function(
        alloc: Global,
        depth: u32,
        d: &Declared,
        kind: Kind,
        given: Taken,
    ) -> Result<Typed, Refusal>
        ensures { AnswersTyped result (function_typed (callee_at depth d.now) kind (taken_of given)) }
    {
        let nesting = above(given.depth)?;
        let form = match (kind, given.into_actuals()) {
            (Kind::Ordinal(_) | Kind::Structured(_) | Kind::Set(_), Some(actuals)) => {
                let callee = callee_at(alloc, depth, d)?;
                Some(Boxed::new(alloc, TypedExpr::Function(callee, actuals))?)
            }
            _ => None,
        };
        Ok(Typed {
            form,
            kind,
            depth: nesting,
            access: Access::Value,
        })
    }

    /// A step from a value by a count, within a host.
    pub(crate) fn step(
        alloc: Global,
        down: bool,
        host: Host,
        x: Typed,
        count: Typed,
    ) -> Result<Typed, Refusal>
        ensures { AnswersTyped result (step_typed down host (typed_of x) (typed_of count)) }
    {
        let depth = above(x.depth.max(count.depth))?;
        let low = least(host);
        let high = greatest(host);
        let form = match (x.into_form(), count.into_form()) {
            (Some(value), Some(by)) => {
                Some(Boxed::new(alloc, TypedExpr::Step(down, low, high, value, by))?)
            }
            _ => None,
        };
        Ok(Typed {
            form,
            kind: Kind::Ordinal(host),
            depth,
            access: Access::Value,
        })
    }
}

/// The least value of a host.
pub fn least(host: Host) -> i64
    ensures { result ≡ hosts.least (typed_host host) }
{
    match host {
        Host::Integer => -i64::MAX,
        _ => 0,
    }
}

/// The greatest value of a host.
pub fn greatest(host: Host) -> i64
    ensures { result ≡ hosts.greatest (typed_host host) }
{
    match host {
        Host::Integer => i64::MAX,
        Host::Char => u8::MAX as i64,
        Host::Boolean => 1,
        Host::Enumeration(e) => e.last as i64,
    }
}

/// The form of a value. All uses of a constant share what an array or a record is given.
fn value_form(alloc: Global, value: &Value) -> Result<TypedExpr, NoMemory>
    ensures { IfOk result (λ form. expr_of form ≡ constant_expr value.now) }
{
    match value {
        Value::Word(word) => Ok(TypedExpr::Constant(*word)),
        Value::Text(bytes) => Ok(TypedExpr::Text(Bytes::from_slice(alloc, bytes.items())?)),
        Value::Set(members) => {
            let members = Bytes::from_slice(alloc, members.items())?;
            Ok(TypedExpr::SetConstant(members))
        }
        Value::Structured(number, given) => Ok(TypedExpr::Structured(*number, given.share()?)),
    }
}
