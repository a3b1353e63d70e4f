ghost use Rattle.nd_update.specs.Updates.{Updates, IsWrittenTree, StandsForMore};

/// The laws of the update of a tree as a value. A call does nothing.
pub fn update_laws()
    ensures updates { Updates }
    ensures written { IsWrittenTree }
    ensures stands { StandsForMore }
{}
