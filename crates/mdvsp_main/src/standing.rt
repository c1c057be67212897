//! Where a search stands, in words.

use std::alloc::Global;
use vs_crew::Stand;
use vs_types::Memory;

/// A gap is counted in millionths of the cost.
const MILLION: i128 = 1_000_000;

/// How many millionths are one per cent.
const PER_CENT: u128 = 10_000;

/// The line of a log for where a search stands after so many seconds.
pub fn log_words(alloc: Global, stand: &Stand, seconds: u64) -> Result<String, Memory> {
    let (cases, open) = (stand.finished, stand.open);
    let cost = figure(alloc, cost_of(stand))?;
    let bound = figure(alloc, stand.bound)?;
    let gap = share(alloc, gap_of(stand))?;
    let words = format!(in alloc;
        "seconds={seconds} cases={cases} open={open} cost={cost} bound={bound} gap={gap}"
    )?;
    Ok(words)
}

/// The same for a terminal.
pub fn screen_words(alloc: Global, stand: &Stand, seconds: u64) -> Result<String, Memory> {
    let cases = stand.finished;
    let cost = figure(alloc, cost_of(stand))?;
    let bound = figure(alloc, stand.bound)?;
    let gap = gap_of(stand);
    let unit = if gap.is_some() { " %" } else { "" };
    let gap = share(alloc, gap)?;
    let words = format!(in alloc;
        "{seconds} seconds, {cases} cases, cost {cost}, bound {bound}, gap {gap}{unit}"
    )?;
    Ok(words)
}

/// What the cheapest plan costs. None where none was found.
fn cost_of(stand: &Stand) -> Option<i128> {
    stand.cost.map(i128::from)
}

/// How far the bound is below the cost, in millionths of the cost, rounded up. None where one of them isn't known, or
/// the cost is 0 and the bound below.
fn gap_of(stand: &Stand) -> Option<u128> {
    let cost = cost_of(stand)?;
    let apart = cost.checked_sub(stand.bound?)?;
    if apart <= 0 {
        return Some(0);
    }
    let scaled = apart.checked_mul(MILLION)?;
    let most = scaled.checked_add(cost.checked_sub(1)?)?;
    let millionths = most.checked_div(cost)?;
    Some(millionths.unsigned_abs())
}

/// A cost or a bound as documents have them.
fn figure(alloc: Global, number: Option<i128>) -> Result<String, Memory> {
    match number {
        Some(number) => Ok(format!(in alloc; "{number}")?),
        None => Ok(String::from_str(alloc, "none")?),
    }
}

/// So many millionths in per cent, with four decimals.
fn share(alloc: Global, millionths: Option<u128>) -> Result<String, Memory> {
    let Some(millionths) = millionths else {
        return Ok(String::from_str(alloc, "none")?);
    };
    let whole = millionths / PER_CENT;
    let part = millionths % PER_CENT;
    Ok(format!(in alloc; "{whole}.{part:04}")?)
}
