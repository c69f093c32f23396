// Headers, items and services as records of octets at fixed places, for lent areas.
#![tactic(auto)]

// Stays: (d) a `get` and a `put` in each module and no trait over them: nothing goes over any record, and each one's law has a premise of its own.
pub mod application;
pub mod item;
pub mod network;
pub mod service;
