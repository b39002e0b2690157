//! Carries out a case and tells how it differs from what is wanted.

use crate::answer::Answer;
use crate::case::Case;
use crate::outside::Outside;
use std::alloc::{AllocError, Global};

/// What is reported where a budget is spent.
const SPENT: &[u8] = b"budget spent\n";

/// The status of a budget that is spent.
const BUDGET: u8 = 7;

/// Whether a case differs from what is wanted, which is told as far as memory lets it.
pub fn differs(alloc: Global, case: &Case, told: &mut String) -> Result<bool, AllocError> {
    if !case.is_sound {
        let _ = told.push_str("cannot be read");
        return Ok(true);
    }
    if differs_once(alloc, case, told)? {
        return Ok(true);
    }
    match case.ends_at {
        Some(end) => differs_at_budgets(alloc, case, end, told),
        None => Ok(false),
    }
}

/// The same with the words as they are.
fn differs_once(alloc: Global, case: &Case, told: &mut String) -> Result<bool, AllocError> {
    let mut outside = Outside::of(alloc, case)?;
    let came = outside.call(alloc, case, None)?;
    if !is_wanted(case, came) {
        show_both(case, came, told);
        return Ok(true);
    }
    let are_right = outside.are_files_right(case);
    if !are_right {
        let _ = told.push_str("another file is held");
    }
    Ok(!are_right)
}

/// Whether an answer is what the case wants.
fn is_wanted(case: &Case, came: Answer<'_>) -> bool {
    if case.is_accepted {
        came.is_accepted()
    } else {
        came.is(case.wanted())
    }
}

/// Shows what is wanted and what came.
fn show_both(case: &Case, came: Answer<'_>, told: &mut String) {
    if case.is_accepted {
        came.show("wanted a text that is accepted, came", told);
        return;
    }
    case.wanted().show("wanted", told);
    came.show(", came", told);
}

/// Whether a case differs at some budget: below the end the budget is spent and a front of the output is there, no
/// shorter than with fewer ticks, and from the end on the answer is the whole one.
fn differs_at_budgets(
    alloc: Global,
    case: &Case,
    end: u64,
    told: &mut String,
) -> Result<bool, AllocError> {
    let mut least = 0usize;
    for ticks in 1..=end.saturating_add(1) {
        match written(alloc, case, ticks, ticks < end, told)? {
            Some(count) if count >= least => least = count,
            Some(_) => {
                let _ = told.push_str("with more ticks less is written");
                return Ok(true);
            }
            None => return Ok(true),
        }
    }
    Ok(false)
}

/// How many bytes are written at one budget, or `None` where the answer is not what is wanted there.
fn written(
    alloc: Global,
    case: &Case,
    ticks: u64,
    is_spent: bool,
    told: &mut String,
) -> Result<Option<usize>, AllocError> {
    let option = format!(in alloc; "--ticks={ticks}")?;
    let mut outside = Outside::of(alloc, case)?;
    let came = outside.call(alloc, case, Some(option.as_str()))?;
    if is_right(case.wanted(), came, is_spent) {
        return Ok(Some(came.output.len()));
    }
    came.show(option.as_str(), told);
    Ok(None)
}

/// Whether an answer is that of a budget that is spent, or else the whole one.
fn is_right(wanted: Answer<'_>, came: Answer<'_>, is_spent: bool) -> bool {
    if !is_spent {
        return came.is(wanted);
    }
    came.status == BUDGET && came.report == SPENT && wanted.output.starts_with(came.output)
}
