//! Sets of layers.

use vs_types::{LayerNo, LayerSet};

/// A set, how many layers it has, the lowest of them, and whether layer 9 is one.
const SETS: [(LayerSet, u32, Option<LayerNo>, bool); 4] = [
    (LayerSet(0), 0, None, false),
    (LayerSet(0b1000_0000_0000_1000), 2, Some(LayerNo(3)), false),
    (LayerSet(0b0000_0010_0000_1000), 2, Some(LayerNo(3)), true),
    (LayerSet(0xffff), 16, Some(LayerNo(0)), true),
];

#[test]
fn have_their_layers(rt: HostRuntime) {
    for (set, count, lowest, has) in SETS {
        let found = (set.count(), set.lowest(), set.has(LayerNo(9)));
        assert_eq!(rt; found, (count, lowest, has));
    }
}

#[test]
fn are_made_of_their_layers(rt: HostRuntime) {
    let made = LayerSet::only(LayerNo(15))
        .with(LayerNo(9))
        .with(LayerNo(3));
    let rest = made.without(LayerNo(3));
    let wanted = (
        LayerSet(0b1000_0010_0000_1000),
        LayerSet(0b1000_0010_0000_0000),
    );
    assert_eq!(rt; (made, rest), wanted);
}

/// A set, another one, what that leaves of it, and whether the other is a proper part of it.
const PARTS: [(LayerSet, LayerSet, LayerSet, bool); 4] = [
    (LayerSet(0b1011), LayerSet(0b0010), LayerSet(0b1001), true),
    (LayerSet(0b1011), LayerSet(0b1011), LayerSet(0), false),
    (LayerSet(0b0001), LayerSet(0b1000), LayerSet(0b0001), false),
    (LayerSet(0b0001), LayerSet(0), LayerSet(0b0001), false),
];

#[test]
fn leave_the_others(rt: HostRuntime) {
    for (whole, part, rest, proper) in PARTS {
        let found = (whole.minus(part), part.is_proper_part(whole));
        assert_eq!(rt; found, (rest, proper));
    }
}
