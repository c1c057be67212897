//! Deadheads, judged one by one and written down by their two stops.

ghost use Rattle.std.specs.Prelude.{◌≡◌, ◌^◌, ◌<◌, ◌≤◌, [], length, All, IfOk, IfErr, OnOk};
ghost use Rattle.vs_instance.specs.Misfits.{first_misfit, deadhead_misfits, deadheads_misfits, deadheads_of, IsFirstOf};

use crate::limits::{MAX_METRES, MAX_MINUTES, MAX_STOPS};
use crate::misfit::{Field, Misfit, NewError, Place};
use crate::parts::Deadhead;
use crate::way::Way;
use crate::ways::Ways;
use std::alloc::Global;

fn deadhead_misfit(n: u32, deadhead: &Deadhead, twice: bool) -> Option<Misfit>
    ensures { result ≡ first_misfit (deadhead_misfits twice n deadhead.now) }
{
    if deadhead.from == deadhead.to {
        Some(Misfit::SelfDeadhead(n))
    } else if deadhead.minutes == 0 || deadhead.minutes > MAX_MINUTES {
        Some(Misfit::Range(Field::Minutes, Place::Deadhead(n)))
    } else if deadhead.metres > MAX_METRES {
        Some(Misfit::Range(Field::Metres, Place::Deadhead(n)))
    } else if twice {
        Some(Misfit::DeadheadTwice(n))
    } else {
        None
    }
}

fn way_of(deadhead: &Deadhead) -> Way
    requires minutes { deadhead.now.minutes ≤ MAX_MINUTES }
    requires metres { deadhead.now.metres ≤ MAX_METRES }
    ensures minutes { result.minutes ≡ deadhead.now.minutes }
    ensures metres { result.metres ≡ deadhead.now.metres }
{
    Way {
        minutes: deadhead.minutes as u32,
        metres: deadhead.metres as u32,
    }
}

/// The deadheads between so many stops, or their first error.
pub fn ways_of(alloc: Global, stops: u32, deadheads: &[Deadhead]) -> Result<Ways, NewError>
    requires stops { stops ≤ MAX_STOPS }
    requires count { length deadheads.now < 2 ^ 32 }
    requires of_stops { All (λ d. (d.from.0 < stops) × (d.to.0 < stops)) deadheads.now }
    ensures given { IfOk result (λ ways.
        (ways.stops ≡ stops) × (ways.given ≡ deadheads_of deadheads.now)) }
    ensures fit { OnOk result (deadheads_misfits deadheads.now ≡ []) }
    ensures misfit { IfErr result (IsFirstOf (deadheads_misfits deadheads.now)) }
{
    let mut ways = Ways::new(alloc, stops)?;
    for (n, deadhead) in deadheads.iter().enumerate() {
        let twice = ways.get(deadhead.from, deadhead.to).is_some();
        if let Some(misfit) = deadhead_misfit(n as u32, deadhead, twice) {
            return Err(NewError::Misfit(misfit));
        }
        ways.insert(deadhead.from, deadhead.to, way_of(deadhead));
    }
    Ok(ways)
}
