//! The reader of instance texts. It judges the records that `csv` reads one by one, and gives an instance
//! with its names, or the first refusal.
#![tactic(auto)]

mod draft;
mod fields;
mod input;
mod kind;
mod laws;
mod limits;
mod name_list;
mod names;
mod reading;
mod record;
mod record_numbers;
mod records;
mod refused;
mod rows;
mod salted;
mod text_records;
mod version;

pub use fields::{name, number, time};
pub use input::{Input, Timetable};
pub use kind::{Kind, is_text};
pub use laws::{instance_texts_are_not_refused, limits_are_fixed, texts_stand_for_one_instance};
pub use limits::MAX_BYTES;
pub use names::Names;
pub use reading::{read, read_instance};
pub use record::field;
pub use refused::{ReadError, Refused, Why};
pub use rows::Rows;
pub use text_records::TextRecords;
pub use version::Version;
