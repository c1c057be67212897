//! What the fields of a record of an instance have to be.

use vs_reader::Kind;

/// What a field has to be.
#[derive(Clone, Copy)]
pub enum Column {
    /// The name of what the record declares.
    New,
    /// The name of a stop that an earlier record declares.
    Stop,
    /// The name of a layer that an earlier record declares.
    Layer,
    Number,
    Time,
}

/// What the fields behind the first of a deadhead's record have to be.
const DEADHEAD: [Column; 4] = [Column::Stop, Column::Stop, Column::Number, Column::Number];

/// What the fields behind the first of a layer's record have to be.
const LAYER: [Column; 7] = [
    Column::New,
    Column::Stop,
    Column::Number,
    Column::Number,
    Column::Number,
    Column::Number,
    Column::Number,
];

/// What the fields behind the first of a trip's record have to be, those for layers left out.
const TRIP: [Column; 6] = [
    Column::New,
    Column::Stop,
    Column::Time,
    Column::Stop,
    Column::Time,
    Column::Number,
];

impl Column {
    /// What field k of a record of a kind has to be, k from 1 on.
    pub fn of(kind: Kind, k: usize) -> Column {
        let columns: &[Column] = match kind {
            Kind::Stop => &[Column::New],
            Kind::Deadhead => &DEADHEAD,
            Kind::Layer => &LAYER,
            Kind::Trip => &TRIP,
        };
        columns
            .get(k.saturating_sub(1))
            .copied()
            .unwrap_or(Column::Layer)
    }

    /// What a name there is the name of, where an earlier record has to declare it.
    pub fn declared(self) -> Option<Kind> {
        match self {
            Column::Stop => Some(Kind::Stop),
            Column::Layer => Some(Kind::Layer),
            Column::New | Column::Number | Column::Time => None,
        }
    }
}
