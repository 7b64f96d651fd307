//! The step of the server as one that requests may reach often, late or never: for one client of a level, what its rows are
//! in a state, and the laws of single steps from which requests act at most once over every schedule.
#![tactic(auto)]

mod laws;

pub use laws::{
    beginnings_keep_the_rest, compounds_act, creates_act, endings_keep_the_rest, others_stay_apart,
    requests_act_once, slots_are_kept, step_is_lawful,
};
