//! Steps along what is lacking of trips.

ghost use Rattle.std.specs.Prelude.{◌*◌, ◌^◌, ◌≤◌, IsTrue};
ghost use Rattle.vs_cuts.specs.declared.products.TheConstants.{MOST_PRODUCT};
ghost use Rattle.vs_weights.specs.declared.step.TheConstants.{MOST_SLOPE};

/// A step along what is lacking of trips.
#[derive(Clone, Copy)]
pub(crate) struct Step {
    pub length: i64,
    /// Whether its product with each slope keeps within 64 bits.
    pub is_short: bool,
}

impl Step {
    ghost use Rattle.vs_weights.specs.Steps.{IsShortFor};

    /// A step of this length along slopes that are no further from 0 than this.
    pub fn along(length: i64, most: u64) -> Step
        ensures { IsShortFor most result }
    {
        Step {
            length,
            is_short: length >= 0 && is_small(length as u64, most),
        }
    }
}

/// Whether a product keeps so far within 64 bits that an error may be added.
fn is_small(length: u64, most: u64) -> bool
    ensures { IsTrue result → length * most ≤ 2 ^ 62 }
{
    match length.checked_mul(most) {
        Some(product) => product <= 1 << 62,
        None => false,
    }
}

/// How far from 0 a slope may come in the moves of a layer.
const MOST_SLOPE: u64 = 1 << 46;

/// How far slopes and products go while weights are moved in a layer.
#[derive(Clone, Copy)]
pub(crate) struct Reach {
    /// No slope is further from 0.
    pub slopes: u64,
    /// No product is greater.
    pub products: u64,
    ghost few_slopes: { slopes ≤ MOST_SLOPE },
    ghost few_products: { products ≤ MOST_PRODUCT },
}
