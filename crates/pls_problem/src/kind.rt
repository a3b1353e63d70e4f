ghost use Rattle.std.specs.Prelude.{◌≡◌};
ghost use Rattle.pls_problem.specs.Kinds.{kind_name, kind_named, least_size};

/// A kind of problem.
#[derive(Clone, Copy, Debug, PartialEq, Eq)]
pub enum Kind {
    /// The 0/1 knapsack with several profit rows and several weight rows.
    Knapsack,
    /// The linear assignment with several cost matrices.
    Assignment,
    /// The symmetric tour with several lists of edges.
    Tour,
}

impl Kind {
    /// The name of the kind, in texts and on the command line.
    pub fn name(self) -> &'static str
        ensures { result.now ≡ kind_name self }
    {
        match self {
            Kind::Knapsack => "knapsack",
            Kind::Assignment => "assignment",
            Kind::Tour => "tour",
        }
    }

    /// The kind that has this name.
    pub fn named(name: &[u8]) -> Option<Kind>
        ensures { result ≡ kind_named name.now }
    {
        if name == b"knapsack".as_slice() {
            Some(Kind::Knapsack)
        } else if name == b"assignment".as_slice() {
            Some(Kind::Assignment)
        } else if name == b"tour".as_slice() {
            Some(Kind::Tour)
        } else {
            None
        }
    }

    /// The least size that an instance of the kind has.
    pub fn least_size(self) -> u16
        ensures { result ≡ least_size self }
    {
        match self {
            Kind::Knapsack | Kind::Assignment => 1,
            Kind::Tour => 3,
        }
    }
}
