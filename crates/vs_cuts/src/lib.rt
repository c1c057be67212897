//! Cuts of layers: circulations found before, each as what it costs and which trips it runs. Several are mixed into one
//! that runs each trip in parts. No circulation is asked for here.
#![tactic(auto)]

mod cut;
mod found;
mod products;
mod share_list;
mod trip_list;
mod trip_set;
mod whole;

pub use cut::{Cut, MOST_ERROR};
pub use found::Found;
pub use products::{MOST_PRODUCT, Products};
pub use trip_set::TripSet;
pub use whole::{
    MOST_LACK, MOST_NUMBER, MOST_TRIPS, WHOLE, as_part, fitting, part_of, short_part_of,
    small_part_of,
};
