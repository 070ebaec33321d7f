//! Executions: what threads can make of a world. The turns are those of a world, and what a call
//! reads between its turns may be anything that the step table admits. One order of all turns, with
//! the calls that made them, is such a run: also that of a whole service, from its opening to its
//! close. The crate contains only laws.
#![tactic(auto)]

mod laws;

pub use laws::{
    each_call_comes_to_rest, each_call_makes_few_turns, each_effect_is_permitted,
    each_forget_takes_its_row, each_point_parks_rightly, each_run_is_an_execution,
    every_hiring_obeys, every_joined_service_is_a_run, every_order_is_a_run,
    every_order_parks_rightly, every_pool_is_whole, every_service_obeys, every_stop_empties,
    every_threaded_run_obeys, every_threaded_run_parks_rightly, no_call_reads_a_row,
    orders_at_rest, worked_order, worked_team,
};
