//! What a call answers, as contracts see it, without a value of [`Call`](pls_archive::Call).

use pls_archive::{Point, PointList, Taken};
use pls_vectors::Vector;
use std::snapshot::Snapshot;

/// A call with its answer.
pub trait Answer {
    ghost use Rattle.pls_archive.specs.declared.call.Call.{Call};
    ghost use Rattle.pls_archive.specs.declared.call.Reply.{Reply};

    ghost call: { Self → Call };

    ghost reply: { Self → Reply };
}

/// A point was submitted.
#[derive(Drop)]
pub struct Submitted {
    pub point: Snapshot<Point>,
    pub taken: Taken,
}

impl Answer for Submitted {
    ghost use Rattle.pls_archive.specs.declared.call.Call.TheVariants.{Update};
    ghost use Rattle.pls_archive.specs.Archives.{reply_of};

    ghost call = { λ a. Update a.point.value };

    ghost reply = { λ a. reply_of a.taken };
}

/// A value is covered, or is not.
#[derive(Drop)]
pub struct IsCovered {
    pub value: Snapshot<Vector>,
    pub yes: bool,
}

impl Answer for IsCovered {
    ghost use Rattle.pls_archive.specs.declared.call.Call.TheVariants.{Covered};
    ghost use Rattle.pls_archive.specs.Archives.{yes_or_no};

    ghost call = { λ a. Covered a.value.value };

    ghost reply = { λ a. yes_or_no a.yes };
}

/// A value is that of a member, or is not.
#[derive(Drop)]
pub struct IsMember {
    pub value: Snapshot<Vector>,
    pub yes: bool,
}

impl Answer for IsMember {
    ghost use Rattle.pls_archive.specs.declared.call.Call.TheVariants.{Member};
    ghost use Rattle.pls_archive.specs.Archives.{yes_or_no};

    ghost call = { λ a. Member a.value.value };

    ghost reply = { λ a. yes_or_no a.yes };
}

/// These are the members.
#[derive(Drop)]
pub struct Members {
    pub points: Snapshot<PointList>,
}

impl Answer for Members {
    ghost use Rattle.pls_archive.specs.declared.call.Call.TheVariants.{Snapshot};
    ghost use Rattle.pls_archive.specs.declared.call.Reply.TheVariants.{Points};

    ghost call = { λ _. Snapshot };

    ghost reply = { λ a. Points a.points.value };
}
