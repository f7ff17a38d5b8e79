//! How far a run of entries reaches, and the places along a list that are found by it.
use crate::id_range::{IdRange, all_ids};
use sum_core::{Dimension, Summary};

/// How far a run of entries reaches, from the offset at which it begins.
#[derive(Clone, Copy)]
pub(crate) struct Extent {
    /// The number of entries.
    pub(crate) items: u32,
    /// From the begin to the last offset.
    pub(crate) span: u32,
    /// How far the greatest end lies after the last offset, in bytes.
    pub(crate) hang: u32,
    /// Between which their ids lie, if there are any.
    pub(crate) ids: Option<IdRange>,
}

impl Summary for Extent {
    ghost use Rattle.mark_tree.specs.Extents.{none, both, IsFitting};
    ghost use Rattle.mark_tree.specs.ExtentLaws.{both-none_left, both-none_right, both-assoc, none_fits, left_fits, right_fits};

    ghost empty = { none };

    ghost joined = { both };

    ghost fits = { IsFitting };

    ghost laws = { record {
      left_identity = both-none_left;
      right_identity = both-none_right;
      assoc = both-assoc;
      empty_fits = none_fits;
      left_fits = left_fits;
      right_fits = right_fits;
    } };

    fn zero() -> Extent {
        Extent {
            items: 0,
            span: 0,
            hang: 0,
            ids: None,
        }
    }

    fn plus(self, other: Extent) -> Extent {
        Extent {
            items: self.items + other.items,
            span: self.span + other.span,
            hang: self.hang.saturating_sub(other.span).max(other.hang),
            ids: all_ids(self.ids, other.ids),
        }
    }
}

/// A place by the number of entries before it.
#[derive(Clone, Copy)]
#[derive_where(PartialEq, Eq, PartialOrd, Ord)]
pub(crate) struct ByItems {
    pub(crate) items: u64,
    #[derive_where(skip)]
    pub(crate) span: u64,
}

impl Dimension<Extent> for ByItems {
    ghost use Rattle.mark_tree.specs.Extents.{by_items, add_items, CanAddItems};
    ghost use Rattle.mark_tree.specs.DimensionLaws.{items-left, items-right, items-fits};
    ghost use Rattle.std.specs.Prelude.{refl};

    ghost measure = { by_items };

    ghost joined_with = { add_items };

    ghost fits_with = { CanAddItems };

    ghost dimension_laws = { record {
      of_joined = λ x y. refl;
      fits_joined = items-fits;
      left_not_greater = λ x y f. items-left x y;
      right_not_greater = λ x y f. items-right x y;
    } };

    fn of(sum: Extent) -> ByItems {
        ByItems {
            items: sum.items as u64,
            span: sum.span as u64,
        }
    }

    fn plus(self, other: ByItems) -> ByItems {
        ByItems {
            items: self.items + other.items,
            span: self.span + other.span,
        }
    }
}

/// A place by its offset.
#[derive(Clone, Copy)]
#[derive_where(PartialEq, Eq, PartialOrd, Ord)]
pub(crate) struct ByOffset {
    pub(crate) span: u64,
    #[derive_where(skip)]
    pub(crate) items: u64,
}

impl Dimension<Extent> for ByOffset {
    ghost use Rattle.mark_tree.specs.Extents.{by_offset, add_offsets, CanAddOffsets};
    ghost use Rattle.mark_tree.specs.DimensionLaws.{offset-left, offset-right, offset-fits};
    ghost use Rattle.std.specs.Prelude.{refl};

    ghost measure = { by_offset };

    ghost joined_with = { add_offsets };

    ghost fits_with = { CanAddOffsets };

    ghost dimension_laws = { record {
      of_joined = λ x y. refl;
      fits_joined = offset-fits;
      left_not_greater = λ x y f. offset-left x y;
      right_not_greater = λ x y f. offset-right x y;
    } };

    fn of(sum: Extent) -> ByOffset {
        ByOffset {
            span: sum.span as u64,
            items: sum.items as u64,
        }
    }

    fn plus(self, other: ByOffset) -> ByOffset {
        ByOffset {
            span: self.span + other.span,
            items: self.items + other.items,
        }
    }
}

/// A place by the greatest end of an entry before it.
#[derive(Clone, Copy)]
#[derive_where(PartialEq, Eq, PartialOrd, Ord)]
pub(crate) struct ByEnd {
    pub(crate) end: u64,
    #[derive_where(skip)]
    pub(crate) span: u64,
    #[derive_where(skip)]
    pub(crate) items: u64,
}

impl Dimension<Extent> for ByEnd {
    ghost use Rattle.mark_tree.specs.Extents.{by_end, add_ends, CanAddEnds};
    ghost use Rattle.mark_tree.specs.DimensionLaws.{end-joined, end-left, end-right, end-fits};

    ghost measure = { by_end };

    ghost joined_with = { add_ends };

    ghost fits_with = { CanAddEnds };

    ghost dimension_laws = { record {
      of_joined = end-joined;
      fits_joined = end-fits;
      left_not_greater = λ x y f. end-left x y;
      right_not_greater = λ x y f. end-right x y;
    } };

    fn of(sum: Extent) -> ByEnd {
        ByEnd {
            end: sum.span as u64 + sum.hang as u64,
            span: sum.span as u64,
            items: sum.items as u64,
        }
    }

    fn plus(self, other: ByEnd) -> ByEnd {
        ByEnd {
            end: self.end.max(self.span + other.end),
            span: self.span + other.span,
            items: self.items + other.items,
        }
    }
}
