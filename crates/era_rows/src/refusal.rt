//! Why a publication was refused.

/// Another version was published before, the one with this number. Or the pinned version is the last of all.
#[derive(Clone, Copy, Debug, PartialEq, Eq, Drop)]
pub enum PublishRefusal {
    Beaten(u64),
    Spent,
}
