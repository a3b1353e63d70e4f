//! The events of the machine.

/// One step of one pass: one load, one store or one compare and exchange of one word.
#[derive(Clone, Copy, Debug, PartialEq, Eq)]
pub enum Event {
    /// Loads the root and notes its version.
    Note {
        pass: u32,
    },
    /// Stores the noted version as the reservation of the pass.
    Announce {
        pass: u32,
    },
    /// Loads the root and pins its version and row.
    Pin {
        pass: u32,
    },
    /// Loads a word of a row of the pinned tree, or of a fresh row.
    Read {
        pass: u32,
        row: u32,
        place: u32,
    },
    /// Exchanges the owner of a free row for the pass, which then has it as a fresh row.
    Take {
        pass: u32,
        row: u32,
    },
    /// Stores a word of a fresh row.
    Write {
        pass: u32,
        row: u32,
        place: u32,
        word: u64,
    },
    /// Exchanges the pinned root for the next version, with its tree at a fresh row.
    Publish {
        pass: u32,
        root: u32,
    },
    /// Takes the reservation back and lets go of the pinned version.
    Unpin {
        pass: u32,
    },
    /// Loads the reservation of a pass, in the order of passes.
    Look {
        pass: u32,
        other: u32,
    },
    /// Gives a row back: a fresh one, or one of a batch that no reservation blocks.
    Free {
        pass: u32,
        row: u32,
    },
}
