//! A list of events, played from the start.

/// Why a list of events was not played to its end.
#[derive(Clone, Copy, Debug, PartialEq, Eq)]
pub enum PlayRefusal {
    /// The event at this index, from 0, is the first that is not allowed in the state which the events before it leave.
    Illegal(usize),
    /// Memory ran out.
    Memory,
}
