//! Instructions as texts: `Unit -1 1` is `Unit` with -1 and 1, by the names of docs/MACHINE.md. Fields at the end that
//! are 0 may be left out.

use ep_base::Line;
use ep_object::Instr;
use std::alloc::{AllocError, Global};

/// The instructions in the order of their codes. Where an underscore stands behind one, its first field is told even
/// where it is 0.
const NAMES: &str = "\
Push_ Text_ Drop Dup Jump_ JumpFalse_ Fail_ Halt Call_ Return Arg_ Peek_ Slot_ Unit_ Bind_ Make_ New \
Dispose Deref Field_ Index Disc_ Load Store Undefine Add Sub Mul Div Mod Neg Abs Sqr Odd Not \
And Or Cmp_ Between Check_ Step SetNone SetAdd SetSpan SetOp_ SetCmp_ In Card Next Like Same \
TOrd TSet TArr TStr TRec_ TSch TInit TConst Chars ToChar Join TextCmp Length Find Cut Trim \
Form_ Put Get GetLine Eof Eoln Open BindFile Unbind Binding Defined";

/// The code of an instruction, or the first one that is not in the table.
fn op_named(name: &str) -> u8 {
    let mut code: u8 = 0;
    for known in NAMES.split_whitespace() {
        if known.strip_suffix('_').unwrap_or(known) == name {
            return code;
        }
        code = code.saturating_add(1);
    }
    code
}

/// The instruction with this code, as the table has it.
fn known(op: u8) -> &'static str {
    let mut code: u8 = 0;
    for known in NAMES.split_whitespace() {
        if code == op {
            return known;
        }
        code = code.saturating_add(1);
    }
    "Unknown"
}

/// A field, which is 0 where it is left out. One that is no number is the undefined word, which no row wants.
pub(crate) fn field(text: Option<&str>) -> i64 {
    match text {
        Some(text) => text.parse::<i64>().unwrap_or(i64::MIN),
        None => 0,
    }
}

/// The instruction that a text is, on this line.
pub(crate) fn instruction(text: &str, line: Line) -> Instr {
    let mut words = text.split_whitespace();
    let op = op_named(words.next().unwrap_or(""));
    let a = field(words.next());
    let b = u32::try_from(field(words.next())).unwrap_or(u32::MAX);
    Instr { op, a, b, line }
}

/// Tells an instruction, with its line where that is not the usual one.
pub(crate) fn tell(out: &mut String, instr: Instr, usual: Line) -> Result<(), AllocError> {
    let known = known(instr.op);
    let name = known.strip_suffix('_').unwrap_or(known);
    out.push_str(name)?;
    if name.len() < known.len() || instr.a != 0 || instr.b != 0 {
        write!(out, " {}", instr.a)?;
    }
    if instr.b != 0 {
        write!(out, " {}", instr.b)?;
    }
    if instr.line != usual {
        write!(out, " @{}", instr.line)?;
    }
    Ok(())
}

/// Tells instructions in order.
pub(crate) fn told(
    alloc: Global,
    instructions: &[Instr],
    usual: Line,
) -> Result<String, AllocError> {
    let mut out = String::new(alloc);
    for instr in instructions {
        if !out.is_empty() {
            out.push_str("; ")?;
        }
        tell(&mut out, *instr, usual)?;
    }
    Ok(out)
}
