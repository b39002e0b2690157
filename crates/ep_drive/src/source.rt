//! The program of a source text, by its tokens, its syntax tree and the static rules.

ghost use Rattle.std.specs.Prelude.{◌≡◌, ◌≢◌, ◌≤◌, List, [], ℕ, None, length, IfOk, IfErr, IsOkUnless, MatchOption, MatchResult, ◌<◌, min};
ghost use Rattle.ep_built.specs.Built.{component_unbuilt};
ghost use Rattle.ep_check_unit.specs.Units.{IsTyped};
ghost use Rattle.ep_typed.specs.Nodes.{unit_nodes};
ghost use Rattle.ep_meaning.specs.Units.{IsValid};
ghost use Rattle.ep_typed.specs.declared.unit.Unit.{Unit as TypedUnit};
ghost use Rattle.ep_drive.specs.ProgramTexts.{HasComponents, IsProgramText, components_unbuilt, node_limit, second_line};
ghost use Rattle.ep_drive.specs.Refusals.{StopsComponent, StopsText, by_tokens, by_grammar, by_rules};
ghost use Rattle.ep_drive.specs.declared.source.SourceStop.TheVariants.{NoMemory};

use ep_base::{Line, Name};
use ep_built::unbuilt;
use ep_check_expr::Broken;
use ep_check_unit::CheckRefusal;
use ep_parse::{ParseRefusal, components};
use ep_token::{MAX_SOURCE, TokenRefusal, tokens};
use ep_tree::Component;
use ep_typed::{Unit, unit_nodes};
use ep_unit_laws::check;
use std::alloc::{AllocError, Global};

/// The most typed nodes of a unit.
const MAX_NODES: u64 = 65_536;

/// Why a source is refused.
#[derive(Drop)]
pub enum SourceRefusal {
    /// It has no tokens.
    Token(TokenRefusal),
    /// Its tokens have no tree.
    Parse(ParseRefusal),
    /// The form on this line is accepted, but not built yet.
    NotBuilt(Line),
    /// It breaks a static rule.
    Broken(Broken),
    /// The unit of this name has so many typed nodes, more than a unit may have.
    TooLarge(Name, u64),
}

/// Why a source has no program. What the layers below say of want of memory becomes `NoMemory`, so a refusal that
/// comes from here is one.
#[derive(Drop)]
pub enum SourceStop {
    /// It is refused.
    Refused(SourceRefusal),
    /// Memory is wanting.
    NoMemory,
}

impl From<TokenRefusal> for SourceStop {
    ghost from_gives = { λ refusal stop. stop ≡ by_tokens refusal };

    fn from(refusal: TokenRefusal) -> SourceStop {
        match refusal {
            TokenRefusal::NoMemory => SourceStop::NoMemory,
            refusal => SourceStop::Refused(SourceRefusal::Token(refusal)),
        }
    }
}

impl From<ParseRefusal> for SourceStop {
    ghost from_gives = { λ refusal stop. stop ≡ by_grammar refusal };

    fn from(refusal: ParseRefusal) -> SourceStop {
        match refusal {
            ParseRefusal::NoMemory => SourceStop::NoMemory,
            refusal => SourceStop::Refused(SourceRefusal::Parse(refusal)),
        }
    }
}

impl From<CheckRefusal> for SourceStop {
    ghost from_gives = { λ refusal stop. stop ≡ by_rules refusal };

    fn from(refusal: CheckRefusal) -> SourceStop {
        match refusal {
            CheckRefusal::Broken(broken) => SourceStop::Refused(SourceRefusal::Broken(broken)),
            CheckRefusal::NotBuilt(line) => SourceStop::Refused(SourceRefusal::NotBuilt(line)),
            CheckRefusal::NoMemory => SourceStop::NoMemory,
        }
    }
}

impl From<AllocError> for SourceStop {
    ghost from_gives = { λ _ stop. stop ≡ NoMemory };

    fn from(_e: AllocError) -> SourceStop {
        SourceStop::NoMemory
    }
}

/// The typed program of a text.
pub fn read_program(alloc: Global, text: &[u8]) -> Result<Unit, SourceStop>
    requires { length text.now ≤ MAX_SOURCE }
    ensures program { IfOk result (λ unit. IsProgramText text.now unit) }
    ensures valid { IfOk result (λ unit. IsValid [] unit) }

    // A refusal has its cause, and the text of a program is not refused.
    ensures refused { IfErr result (StopsText text.now) }
    ensures accepted { (unit : TypedUnit) → IsProgramText text.now unit → IsOkUnless result SourceStop.NoMemory }
{
    read(alloc, text)
}

/// The same, without what follows from it.
fn read(alloc: Global, text: &[u8]) -> Result<Unit, SourceStop>
    requires { length text.now ≤ MAX_SOURCE }
    ensures { MatchResult result (λ unit. IsProgramText text.now unit × IsValid [] unit) (StopsText text.now) }
{
    let found = components_of(alloc, text)?;
    program_of(alloc, found.as_slice())
}

/// The components of a text. Its tokens are let go before they are looked at.
fn components_of(alloc: Global, text: &[u8]) -> Result<Vec<Component>, SourceStop>
    requires { length text.now ≤ MAX_SOURCE }
    ensures { MatchResult result (λ all. HasComponents text.now all.items) (StopsText text.now) }
{
    let found = tokens(alloc, text)?;
    let all = components(alloc, found.as_slice())?;
    Ok(all)
}

/// The typed program of the components of a text, of which there is one at least.
fn program_of(alloc: Global, all: &[Component]) -> Result<Unit, SourceStop>
    requires { all.now ≢ [] }
    ensures { (text : List ℕ) → HasComponents text all.now
        → MatchResult result (λ unit. IsProgramText text unit × IsValid [] unit) (StopsText text) }
{
    if let Some(line) = first_unbuilt(all) {
        return Err(SourceStop::Refused(SourceRefusal::NotBuilt(line)));
    }
    let [only] = all else { unreachable!() };
    let unit = checked_program(alloc, only)?;
    if let Some(nodes) = excess(&unit) {
        let name = unit.name.copy(alloc)?;
        return Err(SourceStop::Refused(SourceRefusal::TooLarge(name, nodes)));
    }
    Ok(unit)
}

/// The typed program of a component, by the static rules.
fn checked_program(alloc: Global, component: &Component) -> Result<Unit, SourceStop>
    requires { component_unbuilt component.now ≡ None }
    ensures { MatchResult result (λ unit. IsTyped component.now unit × IsValid [] unit) (StopsComponent component.now) }
{
    let Some(unit) = check(alloc, component, &[])?.into_unit() else {
        unreachable!()
    };
    Ok(unit)
}

/// How many typed nodes a unit has, where they are more than a unit may have.
fn excess(unit: &Unit) -> Option<u64>
    ensures { MatchOption result (unit_nodes unit.now ≤ node_limit)
        (λ nodes. (node_limit < unit_nodes unit.now) × (nodes ≡ min (unit_nodes unit.now) u64.MAX)) }
{
    let nodes = unit_nodes(unit);
    if nodes > MAX_NODES { Some(nodes) } else { None }
}

/// The line of the first node of components that is not built: a second component is one, whatever it is.
fn first_unbuilt(components: &[Component]) -> Option<Line>
    ensures { result ≡ components_unbuilt components.now }
{
    let [first, rest @ ..] = components else {
        return None;
    };
    match unbuilt(first) {
        Some(line) => Some(line),
        None => second_line(rest),
    }
}

/// The line of the first of the components that follow.
fn second_line(rest: &[Component]) -> Option<Line>
    ensures { result ≡ second_line rest.now }
{
    match rest {
        [Component::Program(p), ..] => Some(p.line),
        [Component::Heading(h), ..] => Some(h.line),
        [Component::Block(b), ..] => Some(b.line),
        [Component::Module(m), ..] => Some(m.line),
        [] => None,
    }
}
