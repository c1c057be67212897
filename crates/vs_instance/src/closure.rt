//! Whether it is nowhere shorter by a third stop, and the first three stops where it is.

ghost use Rattle.std.specs.Prelude.{◌≡◌, ◌+◌, ◌<◌, ◌↔◌, IfOk, IsTrue, Some};
ghost use Rattle.vs_instance.specs.Misfits.{first_misfit, detour_misfits, apart_misfits, misfits_by, misfits_from, closure_misfits};
ghost use Rattle.vs_instance.specs.deadheads.Lengths.{AreShort};

use crate::lengths::{Measure, is_closed_in};
use crate::misfit::Misfit;
use crate::way::Way;
use crate::ways::Ways;
use std::alloc::Global;
use vs_types::{Memory, StopNo};

fn is_longer(direct: u32, first: u32, second: u32) -> bool
    ensures { IsTrue result ↔ (first + second < direct) }
{
    u64::from(direct) > u64::from(first) + u64::from(second)
}

fn detour_misfit(
    k: StopNo,
    s: StopNo,
    t: StopNo,
    first: Way,
    second: Option<Way>,
    direct: Option<Way>,
) -> Option<Misfit>
    ensures { result ≡ first_misfit (detour_misfits k.0 s.0 t.0 (Some first) second direct) }
{
    let second = second?;
    let Some(direct) = direct else {
        return Some(Misfit::NotClosed(k, s, t));
    };
    if is_longer(direct.minutes, first.minutes, second.minutes) {
        Some(Misfit::LongerMinutes(k, s, t))
    } else if is_longer(direct.metres, first.metres, second.metres) {
        Some(Misfit::LongerMetres(k, s, t))
    } else {
        None
    }
}

fn triple_misfit(
    k: StopNo,
    s: StopNo,
    t: StopNo,
    first: Way,
    second: Option<Way>,
    direct: Option<Way>,
) -> Option<Misfit>
    ensures { result ≡ first_misfit (apart_misfits k.0 s.0 t.0 (Some first) second direct) }
{
    if k == s || s == t || k == t {
        None
    } else {
        detour_misfit(k, s, t, first, second, direct)
    }
}

/// The first error of the ways from stop k by stop s, by the number of the third stop.
fn detours_by(ways: &Ways, k: StopNo, s: StopNo) -> Option<Misfit>
    requires from { k.0 < ways.now.stops }
    requires by { s.0 < ways.now.stops }
    ensures { result ≡ first_misfit (misfits_by ways.now.stops ways.now.given k.0 s.0) }
{
    let first = ways.get(k, s)?;
    let direct = ways.row(k);
    let onward = ways.row(s);
    for t in 0..ways.stops() {
        let place = t as usize;
        if let Some(misfit) = triple_misfit(k, s, StopNo(t), first, onward[place], direct[place]) {
            return Some(misfit);
        }
    }
    None
}

/// The first error of the ways from stop k, by the numbers of the second and the third stop.
fn detours_from(ways: &Ways, k: StopNo) -> Option<Misfit>
    requires { k.0 < ways.now.stops }
    ensures { result ≡ first_misfit (misfits_from ways.now.stops ways.now.given k.0) }
{
    for s in 0..ways.stops() {
        if let Some(misfit) = detours_by(ways, k, StopNo(s)) {
            return Some(misfit);
        }
    }
    None
}

/// The first error of closure, by the numbers of the three stops. Each three are judged one by one only
/// where lengths in rows, which are quicker to compare, aren't closed.
pub fn closure_misfit(alloc: Global, ways: &Ways) -> Result<Option<Misfit>, Memory>
    requires { AreShort ways.now }
    ensures { IfOk result (λ found.
        found ≡ first_misfit (closure_misfits ways.now.stops ways.now.given)) }
{
    let in_minutes = is_closed_in(alloc, ways, Measure::Minutes)?;
    let in_metres = is_closed_in(alloc, ways, Measure::Metres)?;
    if in_minutes && in_metres {
        return Ok(None);
    }
    Ok(first_detour(ways))
}

/// The first error of closure, each three stops judged one by one.
fn first_detour(ways: &Ways) -> Option<Misfit>
    ensures { result ≡ first_misfit (closure_misfits ways.now.stops ways.now.given) }
{
    for k in 0..ways.stops() {
        if let Some(misfit) = detours_from(ways, StopNo(k)) {
            return Some(misfit);
        }
    }
    None
}
