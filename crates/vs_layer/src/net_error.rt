//! Why nodes and arcs are no net: the first arc that is wrong.

ghost use Rattle.std.specs.Prelude.{◌≡◌};

use vs_types::Memory;

/// What is wrong with an arc, by its number counted from 0.
#[derive(Clone, Copy, Debug, PartialEq, Eq)]
pub enum NetFault {
    /// One of its ends is no node.
    NoSuchNode(u32),
    /// It isn't the last arc and doesn't go from a lower to a higher node. Or it is the last and doesn't
    /// go from the last node to node 0.
    NotForward(u32),
}

/// Why no net was made.
#[derive(Clone, Copy, Debug, PartialEq, Eq)]
pub enum NetError {
    /// The first arc that is wrong.
    Fault(NetFault),
    /// There was no memory.
    Memory,
}

impl From<Memory> for NetError {
    ghost use Rattle.vs_layer.specs.declared.net_error.NetError.TheVariants as error;

    ghost from_gives = { λ _ e. e ≡ error.Memory };

    fn from(_memory: Memory) -> NetError {
        NetError::Memory
    }
}
