//! The values that may be members of sets, and the types of the sets of them.

ghost use Rattle.std.specs.Prelude.{◌≡◌, Some, IfOk};
ghost use Rattle.ep_typed.specs.Denoters.{required_type};
ghost use Rattle.ep_values.specs.Sets.{is_ordinal};
ghost use Rattle.ep_typed.specs.Viewed.{denoter_of};
ghost use Rattle.ep_unit_rules.specs.OrdinalTypes.{ordinal_value, value_of};
ghost use Rattle.ep_unit_rules.specs.Sets.{are_all_members, are_members, members_denoter, set_denoter};

use crate::types::{host_type, type_denoter};
use ep_base::{Boxed, NoMemory};
use ep_scope::{Host, TypeName};
use ep_typed::{Bound, Denoter, RequiredType, UnitType};
use std::alloc::Global;

/// How many ordinal numbers members of sets may have, from 0 on.
const MEMBER_LIMIT: i64 = 256;

/// The greatest of them.
const LAST_MEMBER: u32 = 255;

/// Whether a member of a set may have this ordinal number.
fn is_ordinal(number: i64) -> bool
    ensures { result ≡ is_ordinal number }
{
    0 <= number && number < MEMBER_LIMIT
}

/// Whether members of sets may have the ordinal numbers of all values of a required type.
fn has_members(required: RequiredType) -> bool
    ensures { result ≡ are_members (Some (required_type required)) }
{
    match required {
        RequiredType::Integer => false,
        RequiredType::Char | RequiredType::Boolean => true,
    }
}

/// Whether they may have those of a subrange or an enumeration, by its own denoter, whatever it begins with.
fn denotes_members(denoter: &Denoter) -> bool
    ensures { result ≡ are_members (ordinal_value (denoter_of denoter.now)) }
{
    match denoter {
        Denoter::Subrange(_, Bound::Constant(low), Bound::Constant(high)) => {
            is_ordinal(*low) && is_ordinal(*high)
        }
        Denoter::Enumeration(names) => match names.items().split_first() {
            None => false,
            Some((_, others)) => others.len() < MEMBER_LIMIT as usize,
        },
        Denoter::Initial(of, _) => denotes_members(of.get()),
        _ => false,
    }
}

/// Whether they may have those of an ordinal type.
pub fn are_members(types: &[UnitType], of: TypeName) -> bool
    ensures { result ≡ are_members (value_of types.now of) }
{
    match of {
        TypeName::Required(required) => has_members(required),
        TypeName::Entry(number) => match types.get(number as usize) {
            None => false,
            Some(t) => denotes_members(&t.entry.denoter),
        },
    }
}

/// Whether all values of a host may be members of sets.
fn are_all_members(host: Host) -> bool
    ensures { result ≡ are_all_members host }
{
    match host {
        Host::Integer => false,
        Host::Char | Host::Boolean => true,
        Host::Enumeration(e) => e.last <= LAST_MEMBER,
    }
}

/// The denoter of the values of a host that may be members.
fn members_denoter(alloc: Global, host: Host) -> Result<Denoter, NoMemory>
    ensures { IfOk result (λ d. d ≡ members_denoter host) }
{
    let all = type_denoter(alloc, host_type(host));
    if are_all_members(host) {
        return Ok(all);
    }
    let least = Bound::Constant(0);
    let greatest = Bound::Constant(i64::from(LAST_MEMBER));
    Ok(Denoter::Subrange(Boxed::new(alloc, all)?, least, greatest))
}

/// The denoter of sets of them.
pub(crate) fn set_denoter(alloc: Global, host: Host) -> Result<Denoter, NoMemory>
    ensures { IfOk result (λ d. d ≡ set_denoter host) }
{
    let base = members_denoter(alloc, host)?;
    Ok(Denoter::Set(Boxed::new(alloc, base)?))
}
