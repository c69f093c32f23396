// Hitchbarley for C and Rust programs: every call over numbers and lent octets, with the promises of the calls below.
#![tactic(auto)]

mod answers;
pub mod header_calls;
pub mod item_calls;
pub mod replay_calls;
pub mod service_calls;
pub mod sum_calls;
pub mod trunk_calls;
pub mod writer_calls;
