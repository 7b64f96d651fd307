//! What operations look at of a policy, and what stands before all events.
#![tactic(auto)]

mod example;
mod first;
mod labels;
mod laws;
mod reading;
mod site;
mod table;

pub use example::first_world_of_four_lines;
pub use first::{first_dirs, root_label};
pub use labels::Labels;
pub use laws::first_world_of_every_policy;
pub use reading::LabelRead;
pub use site::Site;
