// The verdict of a data set comparison, after bmc/dataset_comparison.rs: how it ranks.
#![tactic(auto)]

ghost use Rattle.std.specs.Prelude.{◌≡◌};
ghost use Rattle.verdict.specs.Verdict.{as_ordering, ranks_above, is_by_topology};

use std::cmp::Ordering;

// The verdict on the left side of a comparison.
#[derive(Clone, Copy)]
pub enum DatasetOrdering {
    Better,
    BetterByTopology,
    Error1,
    Error2,
    WorseByTopology,
    Worse,
}

impl DatasetOrdering {
    // The better ranks greater; the two errors are ties.
    pub fn as_ordering(self) -> Ordering
        ensures { result ≡ as_ordering self }
    {
        match self {
            DatasetOrdering::Better | DatasetOrdering::BetterByTopology => Ordering::Greater,
            DatasetOrdering::Error1 | DatasetOrdering::Error2 => Ordering::Equal,
            DatasetOrdering::WorseByTopology | DatasetOrdering::Worse => Ordering::Less,
        }
    }

    // Better or BetterByTopology.
    pub fn ranks_above(self) -> bool
        ensures { result ≡ ranks_above self }
    {
        matches!(
            self,
            DatasetOrdering::BetterByTopology | DatasetOrdering::Better
        )
    }

    // Better, by the network's topology alone.
    pub fn by_topology(self) -> bool
        ensures { result ≡ is_by_topology self }
    {
        matches!(self, DatasetOrdering::BetterByTopology)
    }
}
