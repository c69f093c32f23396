// Decoded values: the services' parameters in words, from `services::read` and the records of `items::list`.
// Text goes to a pen; what is too long for its area is cut, and the line says how many octets are left.
#![tactic(auto)]

mod carried;
mod contents;
mod item;
mod list;
pub mod long;
pub mod service;
pub mod table;

// The octets of a span; none where there are no such.
pub fn span(s: &[u8], at: usize, len: usize) -> &[u8] {
    s.get(at..).and_then(|t| t.get(..len)).unwrap_or(&[])
}
