//! The layers and trips that fields name.

ghost use Rattle.std.specs.Prelude.{IfSome, IfNone};
ghost use Rattle.vs_reader.specs.NameRules.{AreNames};
ghost use Rattle.vs_rows.specs.RowForms.{IsNameOf, IsNoName};

use crate::fields::is_text;
use vs_reader::Names;
use vs_types::{LayerNo, TripNo};

/// What a row of prices is likely to name. It is compared first.
#[derive(Clone, Copy)]
pub struct Likely {
    pub layer: LayerNo,
    pub trip: TripNo,
}

impl Likely {
    /// The first layer and the first trip.
    pub fn first() -> Likely {
        Likely {
            layer: LayerNo(0),
            trip: TripNo(0),
        }
    }
}

/// The layer that a field names.
pub fn layer_named(names: &Names, field: &[u8], likely: LayerNo) -> Option<LayerNo>
    ensures found { IfSome result (λ l. IsNameOf names.now.layers field.now l.0) }
    ensures none { IfNone result (IsNoName names.now.layers field.now) }
    ensures names { AreNames names.now.layers }
{
    let layers = names.layers();
    if (likely.0 as usize) < layers && is_text(field, names.layer(likely)) {
        return Some(likely);
    }
    match str::from_utf8(field) {
        Ok(name) => names.layer_of(name),
        Err(_) => None,
    }
}

/// The trip that a field names.
pub fn trip_named(names: &Names, field: &[u8], likely: TripNo) -> Option<TripNo>
    ensures found { IfSome result (λ i. IsNameOf names.now.trips field.now i.0) }
    ensures none { IfNone result (IsNoName names.now.trips field.now) }
    ensures names { AreNames names.now.trips }
{
    let trips = names.trips();
    if (likely.0 as usize) < trips && is_text(field, names.trip(likely)) {
        return Some(likely);
    }
    match str::from_utf8(field) {
        Ok(name) => names.trip_of(name),
        Err(_) => None,
    }
}
