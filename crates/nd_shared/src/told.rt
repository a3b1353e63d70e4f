//! The entries of calls that brought nothing in.

use era_rows::Names;
use nd_rows::NdLaw;
use pls_archive::{Call, Point, Reply};
use std::snapshot::Snapshot;

/// A call of a caller with its reply, which brought nothing in. It names its entry.
#[derive(Drop)]
pub(crate) struct Told {
    pub(crate) caller: u32,
    pub(crate) stamp: u64,
    pub(crate) call: Snapshot<Call>,
    pub(crate) reply: Snapshot<Reply>,
}

impl Names<NdLaw> for Told {
    ghost use Rattle.std.specs.Prelude.{Some};

    ghost entry = { λ t. Some (record { caller = t.caller; stamp = t.stamp; call = t.call.value; reply = t.reply.value }) };
}

/// An update of a caller that was refused. It names its entry, for which no call is made.
#[derive(Drop)]
pub(crate) struct Refuses {
    pub(crate) caller: u32,
    pub(crate) stamp: u64,
    pub(crate) point: Snapshot<Point>,
}

impl Names<NdLaw> for Refuses {
    ghost use Rattle.std.specs.Prelude.{Some};
    ghost use Rattle.pls_archive.specs.declared.call.Call.TheVariants.{Update};
    ghost use Rattle.pls_archive.specs.declared.call.Reply.TheVariants.{Refused};

    ghost entry = { λ t. Some (record { caller = t.caller; stamp = t.stamp; call = Update t.point.value; reply = Refused }) };
}
