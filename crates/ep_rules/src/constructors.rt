//! The rules of set constructors, on values that are accepted.

ghost use Rattle.std.specs.Prelude.{◌≡◌, IfOk, Some, ◌++◌, ◌∷◌, [], map};
ghost use Rattle.std.specs.Option.{option_map};
ghost use Rattle.ep_typed.specs.Viewed.{designator_of};
ghost use Rattle.ep_rules.specs.Answers.{AnswersJudged, AnswersTyped, members_of, typed_of};
ghost use Rattle.ep_rules.specs.Constructors.{constructed, joined_by, may_join, no_members, set_kind, with_range, with_single};
ghost use Rattle.ep_rules.specs.Operators.{map_both};

use crate::access::Access;
use crate::forms::{Refusal, Typed, above};
use crate::operators::are_compatible;
use ep_base::{Boxed, List, NoMemory};
use ep_scope::{Host, Kind, rule, same_host};
use ep_typed::{MemberDesignator, MemberDesignators, TypedExpr};
use std::alloc::Global;

/// What is gathered of member designators: the designators, where all are built, the host of their values, once there is
/// one, and how deep the deepest value is.
pub struct Members {
    /// The designators.
    pub designators: Option<MemberDesignators>,
    /// The host.
    pub host: Option<Host>,
    /// The depth.
    pub depth: u32,
}

impl Drop for Members {
    fn drop(self) {
        let Members {
            designators: _,
            host: _,
            depth: _,
        } = self;
    }
}

/// Whether values of a host may stand beside those before them.
fn may_join(before: Option<Host>, host: Host) -> bool
    ensures { result ≡ may_join before host }
{
    match before {
        None => true,
        Some(other) => same_host(other, host),
    }
}

/// The kind of a set of values of this host.
fn set_kind(host: Option<Host>) -> Kind
    ensures { result ≡ set_kind host }
{
    match host {
        None => Kind::EmptySet,
        Some(host) => Kind::Set(host),
    }
}

/// The designators with one more at the end, where all are built.
pub fn with_designator(
    list: Option<MemberDesignators>,
    one: Option<MemberDesignator>,
) -> Result<Option<MemberDesignators>, NoMemory>
    ensures { IfOk result (λ now. option_map (map designator_of) now ≡ map_both (λ ds e. ds ++ e ∷ [])
        (option_map (map designator_of) list) (option_map designator_of one)) }
{
    let Some(mut list) = list else {
        return Ok(None);
    };
    let Some(one) = one else {
        return Ok(None);
    };
    list.push(one)?;
    Ok(Some(list))
}

impl Members {
    /// What is gathered of none.
    pub fn nothing(alloc: Global) -> Members
        ensures { members_of result ≡ no_members }
    {
        Members {
            designators: Some(List::new(alloc)),
            host: None,
            depth: 0,
        }
    }

    /// The designators alone.
    fn into_designators(self) -> Option<MemberDesignators>
        ensures { result ≡ self.designators }
    {
        let Members {
            designators,
            host: _,
            depth: _,
        } = self;
        designators
    }

    /// The same with a designator of values of this kind, which is ordinal and has the same host as those before.
    fn joined(
        self,
        kind: Kind,
        designator: Option<MemberDesignator>,
        depth: u32,
    ) -> Result<Members, Refusal>
        ensures { AnswersJudged members_of result
            (joined_by kind (members_of self) (option_map designator_of designator) depth) }
    {
        let Kind::Ordinal(host) = kind else {
            return Err(Refusal::Rule(rule::OPERANDS));
        };
        if !may_join(self.host, host) {
            return Err(Refusal::Rule(rule::OPERANDS));
        }
        let depth = self.depth.max(depth);
        let designators = with_designator(self.into_designators(), designator)?;
        Ok(Members {
            designators,
            host: Some(host),
            depth,
        })
    }

    /// The same with one value.
    #[inline(never)]
    pub fn with_single(self, value: Typed) -> Result<Members, Refusal>
        ensures { AnswersJudged members_of result (with_single (members_of self) (typed_of value)) }
    {
        let kind = value.kind;
        let depth = value.depth;
        let designator = match value.into_form() {
            None => None,
            Some(form) => Some(MemberDesignator::Single(form)),
        };
        self.joined(kind, designator, depth)
    }

    /// The same with the values from one to another of the same host.
    #[inline(never)]
    pub fn with_range(self, low: Typed, high: Typed) -> Result<Members, Refusal>
        ensures { AnswersJudged members_of result
            (with_range (members_of self) (typed_of low) (typed_of high)) }
    {
        if !are_compatible(low.kind, high.kind) {
            return Err(Refusal::Rule(rule::OPERANDS));
        }
        let kind = low.kind;
        let depth = low.depth.max(high.depth);
        let designator = match (low.into_form(), high.into_form()) {
            (Some(first), Some(last)) => Some(MemberDesignator::Range(first, last)),
            _ => None,
        };
        self.joined(kind, designator, depth)
    }

    /// The set of these members.
    #[inline(never)]
    pub fn constructed(self, alloc: Global) -> Result<Typed, Refusal>
        ensures { AnswersTyped result (constructed (members_of self)) }
    {
        let depth = above(self.depth)?;
        let kind = set_kind(self.host);
        let form = match self.into_designators() {
            None => None,
            Some(designators) => Some(Boxed::new(alloc, TypedExpr::Set(designators))?),
        };
        Ok(Typed {
            form,
            kind,
            depth,
            access: Access::Value,
        })
    }
}
