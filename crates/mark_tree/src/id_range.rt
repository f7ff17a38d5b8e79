//! Between which ids those of a run of entries lie.
ghost use Rattle.std.specs.Prelude.{◌≡◌};
ghost use Rattle.mark_tree.specs.IdRanges.{all_ids, both_ids, may_have, only};

/// The least and the greatest of some ids.
#[derive(Clone, Copy)]
pub(crate) struct IdRange {
    least: u32,
    greatest: u32,
}

impl IdRange {
    /// That of one id.
    pub(crate) fn only(id: u32) -> IdRange
        ensures { result ≡ only id }
    {
        IdRange {
            least: id,
            greatest: id,
        }
    }

    /// That of these ids and those.
    fn joined(self, other: IdRange) -> IdRange
        ensures { result ≡ both_ids self other }
    {
        IdRange {
            least: self.least.min(other.least),
            greatest: self.greatest.max(other.greatest),
        }
    }
}

/// The range of the ids of two runs, each of which may have none.
pub(crate) fn all_ids(first: Option<IdRange>, second: Option<IdRange>) -> Option<IdRange>
    ensures { result ≡ all_ids first second }
{
    match first {
        None => second,
        Some(first) => match second {
            None => Some(first),
            Some(second) => Some(first.joined(second)),
        },
    }
}

/// Whether the id lies between those of a run.
pub(crate) fn may_have(ids: Option<IdRange>, id: u32) -> bool
    ensures { result ≡ may_have ids id }
{
    match ids {
        Some(ids) => ids.least <= id && id <= ids.greatest,
        None => false,
    }
}
