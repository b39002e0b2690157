//! Names at their edges, and a small tree that contains itself through lists and boxes.

ghost use Rattle.std.specs.Prelude.{◌≡◌, ◌+◌, ◌<◌, ◌^◌, min, IfOk, ◌∷◌, [], map};

use super::*;
use std::alloc::Global;
use std::test::Fail;

/// A formula: a number, a negated formula, or a sum of formulas.
#[cycle(formula)]
#[derive(Drop)]
enum Formula {
    Number(u32),
    Minus(Boxed<Formula>),
    Sum(List<Formula>),
}

/// How deep a formula is, which walks boxes and lists with no measure.
#[cycle(depth)]
fn depth(formula: &Formula) -> u32 {
    match formula {
        Formula::Number(_) => 0,
        Formula::Minus(inner) => depth(inner.get()).saturating_add(1),
        Formula::Sum(parts) => deepest(parts.items()).saturating_add(1),
    }
}

#[cycle(depth)]
fn deepest(parts: &[Formula]) -> u32 {
    let mut most = 0;
    for part in parts {
        most = depth(part).max(most);
    }
    most
}

/// `-(n + n)`, which shows that contracts see formulas as plain data.
fn minus_double(alloc: Global, n: u32) -> Result<Formula, NoMemory>
    ensures { IfOk result (λ f. f ≡ Formula.Minus (Formula.Sum (Formula.Number n ∷ Formula.Number n ∷ []))) }
{
    let mut parts = List::new(alloc);
    parts.push(Formula::Number(n))?;
    parts.push(Formula::Number(n))?;
    Ok(Formula::Minus(Boxed::new(alloc, Formula::Sum(parts))?))
}

#[test]
fn trees_contain_themselves(rt: HostRuntime) -> Result<(), Fail> {
    let tree = minus_double(rt.alloc(), 7)?;
    assert_eq!(rt; depth(&tree), 2);
    let outer = Formula::Minus(Boxed::new(rt.alloc(), tree)?);
    assert_eq!(rt; depth(&outer), 3);
    let boxed = Boxed::new(rt.alloc(), 5u8)?;
    assert_eq!(rt; boxed.into_inner(), 5);
    Ok(())
}

#[test]
fn lists_keep_order(rt: HostRuntime) -> Result<(), Fail> {
    let mut bytes = Bytes::from_slice(rt.alloc(), b"ab")?;
    bytes.push(b'c')?;
    bytes.set(0, b'x');
    assert_eq!(rt; bytes.items(), b"xbc".as_slice());
    assert_eq!(rt; bytes.pop(), Some(b'c'));
    let mut one = List::with_room(rt.alloc(), 1)?;
    one.push(b'y')?;
    assert_eq!(rt; one.items(), b"y".as_slice());
    let vector = b"zz".to_vec(rt.alloc())?;
    assert_eq!(rt; List::from_vec(vector).items().len(), 2);
    Ok(())
}

/// What a text is answered with: the name, or the refusal.
fn answer(alloc: Global, text: &[u8]) -> Result<Vec<u8>, NameRefusal> {
    let name = Name::from_bytes(alloc, text)?;
    let copy = name.copy(alloc)?;
    Ok(copy.bytes().to_vec(alloc)?)
}

#[test]
fn names_are_in_lower_case(rt: HostRuntime) -> Result<(), Fail> {
    for (text, want) in [
        (b"A".as_slice(), b"a".as_slice()),
        (b"Write_Ln9", b"write_ln9"),
        (b"x_1_y", b"x_1_y"),
        (b"BEGIN", b"begin"),
    ] {
        assert_eq!(rt; answer(rt.alloc(), text)?.as_slice(), want);
    }
    Ok(())
}

#[test]
fn other_texts_are_no_names(rt: HostRuntime) -> Result<(), Fail> {
    for text in [
        b"".as_slice(),
        b"_a",
        b"a_",
        b"a__b",
        b"9a",
        b"a b",
        b"a-b",
        b"\xe4",
    ] {
        match answer(rt.alloc(), text) {
            Err(refusal) => assert_eq!(rt; refusal, NameRefusal::NotAName),
            Ok(_) => assert!(rt; false, "accepted"),
        }
    }
    Ok(())
}

#[test]
fn names_have_at_most_255_bytes(rt: HostRuntime) -> Result<(), Fail> {
    let longest = vec![in rt.alloc(); b'n'; MAX_NAME]?;
    assert_eq!(rt; answer(rt.alloc(), longest.as_slice())?.len(), MAX_NAME);
    let longer = vec![in rt.alloc(); b'n'; MAX_NAME + 1]?;
    match answer(rt.alloc(), longer.as_slice()) {
        Err(refusal) => assert_eq!(rt; refusal, NameRefusal::TooLong(256)),
        Ok(_) => assert!(rt; false, "accepted"),
    }
    Ok(())
}
