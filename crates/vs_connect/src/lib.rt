//! Which trips one vehicle can run one after another, and what each of its moves costs. Everything that
//! asks whether a vehicle is somewhere in time asks it here.
#![tactic(auto)]

mod connections;
mod pieces;

pub use connections::connects;
pub use pieces::{
    MAX_PIECE, MAX_REST, direct_cost, in_cost, lesser, link_cost, out_cost,
    pieces_exist_where_moves_do, rest_cost, rest_times, scaled, trip_cost,
};
