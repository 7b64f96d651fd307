//! Requests of the client that the repository ships act at most once, over every schedule of a network that loses, repeats
//! and reorders. `specs/Packets.antt` says what each request is as a packet, and what is read from its reply, and
//! `specs/Schedule.antt` what a schedule of the client is.
#![tactic(auto)]

mod laws;

pub use laws::acts_once;
