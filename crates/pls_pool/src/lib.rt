//! Tasks that workers share, and the desk at which a run of several workers is counted and halted.
//!
//! A [`Pool`] gives each task that was put to at most one seat. [`OneQueue`] keeps the tasks in one queue, [`Stealing`] in a
//! deque for each seat, from which the others steal; tasks that the queue or deque hands back are in a spare list of the seat
//! that put them. After the joins one seat tells that what was taken is among what was put, and where no task is left that both
//! are the same. `specs/TaskRule.antt` has the rule of each queue.
//!
//! A [`Desk`] counts the tasks that are not done, gives out the moves of a budget, and keeps the causes for which the run is
//! halted. Each worker has a [`DeskSeat`]; after the joins one seat tells what all of them did. No call waits, and all but the
//! start take no memory. `specs/DeskRule.antt` has the rule that holds between any two steps, in every schedule.
#![tactic(auto)]

mod cause;
mod deque_plays;
mod desk;
mod desk_plays;
mod desk_starts;
mod desk_steps;
mod hand;
mod laws;
mod one_queue;
mod one_queue_calls;
mod one_queue_starts;
mod pool;
mod sizes;
mod spare;
mod stealing;
mod stealing_calls;
mod stealing_reaches;
mod stealing_starts;
mod tally;
mod task_plays;

pub use cause::{Cause, Draw};
pub use desk::{Desk, DeskSeat};
pub use laws::halted_keeps_cause;
pub use one_queue::{OneQueue, QueueSeat};
pub use pool::Pool;
pub use stealing::{StealSeat, Stealing};
