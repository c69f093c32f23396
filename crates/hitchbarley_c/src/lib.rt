// What C and Rust programs link: each call of hitchbarley under its name, with its promise.
#![tactic(auto)]

mod header_calls;
mod item_calls;
mod replay_calls;
mod service_calls;
mod sum_calls;
mod trunk_calls;
mod writer_calls;
