/// Why a try to update the shared tree was refused.
#[derive(Clone, Copy, Debug, PartialEq, Eq, Drop)]
pub enum TryRefusal {
    /// No row was free.
    Full,
    /// The pinned version is the last of all, and no member covers the point.
    Spent,
    /// This version was published meanwhile.
    Beaten(u64),
}
