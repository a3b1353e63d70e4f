//! Pareto local search by several workers, over any archive that they share and any pool of tasks.
//!
//! Each accepted point is a task: to explore it is to submit its neighbours, in order. A worker takes tasks from a pool, and
//! draws one move at a desk before each neighbour. `specs/Workers.antt` has what a worker hands on when it leaves.
#![tactic(auto)]

mod concludes;
mod crew;
mod departs;
mod end;
mod explores;
mod gate;
mod gathers;
mod graver;
mod joins;
mod outcome;
mod searches;
mod spreads;
mod starts;
mod submits;
mod task;
mod together;
mod worker;
mod works;

pub use end::End;
pub use gate::{Gate, NoGate};
pub use outcome::{NoMemory, Outcome};
pub use searches::search;
pub use task::Task;
