//! Small timetables of version 2: how they are drawn from numbers, their texts, and what their cheapest plans cost.

mod count;
mod drive;
mod make;
mod text;

pub use count::least_cost;
pub use make::made;
pub use text::text_of;

/// A way from one stop to another.
#[derive(Clone, Copy)]
pub struct Way {
    pub minutes: u64,
    pub metres: u64,
}

/// Vehicles of one depot, and the fewest minutes that they rest there. Its bit stands for it in the trips' sets.
#[derive(Clone, Copy)]
pub struct Layer {
    pub bit: u64,
    pub depot: u64,
    pub fleet: u64,
    pub fixed: u64,
    pub per_minute: u64,
    pub per_metre: u64,
    pub stay: u64,
}

/// A trip, and the bits of the layers that may run it.
#[derive(Clone, Copy)]
pub struct Trip {
    pub from: u64,
    pub start: u64,
    pub to: u64,
    pub end: u64,
    pub metres: u64,
    pub layers: u64,
}

/// Three stops, the ways from each to each, row by row, the layers, and the trips in the order in which they start.
#[derive(Drop)]
pub struct Small {
    pub ways: [Option<Way>; 9],
    pub layers: Vec<Layer>,
    pub trips: Vec<Trip>,
}

impl Small {
    /// The way from one stop to another, if there is one.
    pub fn way(&self, from: u64, to: u64) -> Option<Way> {
        if from >= 3 || to >= 3 {
            return None;
        }
        self.ways[(from * 3 + to) as usize]
    }
}
