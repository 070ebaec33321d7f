//! Banks: several objects at the places of one table. Calls at different places do not wait for one
//! another, and all turns have one order.
#![tactic(auto)]

mod bank;
mod calls;
mod laws;
mod refusals;
mod seat;

pub use bank::Bank;
pub use laws::{
    each_pass_knows_its_turns, each_place_is_in_the_order, each_seat_of_a_bank_knows_its_own,
    one_order,
};
pub use refusals::NoMemory;
pub use seat::BankSeat;
