//! Floor of the model: the types of a history, and in specs/ the definitions of what a history means.
#![tactic(auto)]

mod answers;
mod book;
mod copies;
mod entries;
mod holding;
mod limits;
mod opening;
mod requests;
#[cfg(test)]
mod tests;

pub use answers::{Answer, Device, FaultNote, Gone, Limit, Recorded, Reply};
pub use book::{Book, Given, Hold, Row, Ticket, Waiter};
pub use entries::{Card, Entry, Event, Outcome, Task};
pub use hall_lock::By;
pub use holding::Holding;
pub use limits::Limits;
pub use opening::Opening;
pub use requests::{Asked, CleanMode, Request};
