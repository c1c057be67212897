//! What can be wrong with what is claimed of layers, and the answer on it.

use vs_plan::PlanFault;
use vs_prices::BrokenAt;
use vs_types::LayerNo;

/// What is wrong with what is claimed of a layer, in the numbers of the instance that counts its vehicles.
#[derive(Clone, Copy, Debug, PartialEq, Eq)]
pub enum PeakFlaw {
    /// A count is claimed, and its blocks don't run each trip of the layer once.
    Blocks(PlanFault),
    /// So many vehicles are claimed, and there are so many blocks.
    CountDiffers(u32, u32),
    /// The prices break there.
    TableBroken(BrokenAt),
    /// The prices are worth so much, which is less than the count, or shows nothing where there is none.
    TooWeak(i128, Option<u32>),
}

/// Whether what is claimed holds, and else the first flaw of the first layer that has one.
#[derive(Clone, Copy, Debug, PartialEq, Eq)]
pub enum PeakVerdict {
    Yes,
    No(LayerNo, PeakFlaw),
}
