//! Stretches: what a map keeps of its lines.
ghost use Rattle.std.specs.Prelude.{◌≡◌, ◌+◌, ◌≤◌, ◌<◌, ◌^◌, [], length, IfOk};
ghost use Rattle.wrap_map.specs.Stood.{are_alike};
ghost use Rattle.wrap_map.specs.inside.Stretches.{IsStretch, stretched};

use crate::extent::{Ends, Extent};
use cell_line::Cuts;
use cell_units::NoMemory;
use std::alloc::Global;
use std::marker::Model;
use std::mem::size_of;
use std::sync::Arc;
use sum_core::Item;

/// A line with its cuts, or neighbouring lines without cuts, at one mark.
#[derive(Drop)]
pub struct Stretch {
    kept: Kept,
}

/// How a stretch is kept. A leaf has room for the cuts of most lines. So these take no allocation, neither when the
/// line lands nor when the leaf is copied. Many cuts are shared by all copies. The mark is in each variant, beside the
/// tag, where it takes no room of its own.
#[derive(Drop)]
enum Kept {
    Uncut { mark: u32, lines: u32 },
    Few { mark: u32, cuts: Cuts },
    Many { mark: u32, cuts: Arc<Cuts> },
}

/// What a line takes of a leaf, in bytes.
const _: () = prove!(size_of::<Stretch>() == 40);

impl Model for Stretch {
    ghost use Rattle.wrap_map.specs.inside.Kept.{kept_stretch};
    ghost use Rattle.wrap_map.specs.inside.Stretches.{IsStretch, Stretched};

    ghost Value = { Stretched };

    ghost view = { λ s. kept_stretch s.kept };

    ghost invariant = { λ s. IsStretch (kept_stretch s.kept) };
}

impl Stretch {
    /// So many lines without cuts.
    pub fn uncut(mark: u32, lines: u32) -> Stretch
        requires { 1 ≤ lines }
        ensures { result ≡ stretched mark lines [] }
    {
        Stretch {
            kept: Kept::Uncut { mark, lines },
        }
    }

    /// One line with its cuts.
    pub fn of_line(alloc: Global, mark: u32, cuts: &Cuts) -> Result<Stretch, NoMemory>
        requires { length cuts.now.items + 1 < 2 ^ 32 }
        ensures { IfOk result (λ s. s ≡ stretched mark 1 cuts.now.items) }
    {
        if cuts.is_empty() {
            return Ok(Stretch::uncut(mark, 1));
        }
        let cuts = cuts.clone()?;
        if cuts.len() <= cuts.inline_size() {
            return Ok(Stretch {
                kept: Kept::Few { mark, cuts },
            });
        }
        let cuts = Arc::new(alloc, cuts)?;
        Ok(Stretch {
            kept: Kept::Many { mark, cuts },
        })
    }

    /// So many of its lines.
    pub fn part(&self, lines: u32) -> Result<Stretch, NoMemory>
        requires { (1 ≤ lines) × (lines ≤ self.now.lines) }
        ensures { IfOk result (λ s. s ≡ record self.now { lines = lines }) }
    {
        match &self.kept {
            Kept::Uncut { mark, .. } => Ok(Stretch::uncut(*mark, lines)),
            // One line is all that it has.
            _ => self.copied(),
        }
    }

    /// An equal stretch, which shares the cuts where they are many.
    fn copied(&self) -> Result<Stretch, NoMemory>
        ensures { IfOk result (λ s. s ≡ self.now) }
    {
        let kept = match &self.kept {
            Kept::Uncut { mark, lines } => Kept::Uncut {
                mark: *mark,
                lines: *lines,
            },
            Kept::Few { mark, cuts } => Kept::Few {
                mark: *mark,
                cuts: cuts.clone()?,
            },
            Kept::Many { mark, cuts } => Kept::Many {
                mark: *mark,
                cuts: Arc::try_clone(cuts)?,
            },
        };
        Ok(Stretch { kept })
    }

    /// Both have no cuts, and have one mark.
    pub fn is_alike(&self, other: &Stretch) -> bool
        ensures { result ≡ are_alike self.now.stood other.now.stood }
    {
        self.mark() == other.mark() && self.cut_count() == 0 && other.cut_count() == 0
    }

    /// Adds so many lines, which are wrapped as its own are, to one without cuts.
    pub fn grow(&mut self, lines: u32)
        requires fits { self.old.lines + lines < 2 ^ 32 }
        requires uncut { self.old.stood.cuts ≡ [] }
        ensures { self.new ≡ record self.old { lines = self.old.lines + lines } }
    {
        *self = Stretch::uncut(self.mark(), self.lines() + lines);
    }

    /// The width in cells at which its lines are wrapped, 0 where each is in one row.
    pub fn mark(&self) -> u32
        ensures { result ≡ self.now.stood.mark }
    {
        match &self.kept {
            Kept::Uncut { mark, .. } | Kept::Few { mark, .. } | Kept::Many { mark, .. } => *mark,
        }
    }

    /// How many lines it has.
    pub fn lines(&self) -> u32
        ensures value { result ≡ self.now.lines }
        ensures stretch { IsStretch self.now }
    {
        match &self.kept {
            Kept::Uncut { lines, .. } => *lines,
            Kept::Few { .. } | Kept::Many { .. } => 1,
        }
    }

    /// How often each of its lines is cut.
    fn cut_count(&self) -> u32
        ensures { result ≡ length self.now.stood.cuts }
    {
        match &self.kept {
            Kept::Uncut { .. } => 0,
            Kept::Few { cuts, .. } => cuts.len() as u32,
            Kept::Many { cuts, .. } => cuts.len() as u32,
        }
    }

    /// The marks of its first line and of its last.
    pub fn ends(&self) -> Ends
        ensures { result ≡ record { first = self.now.stood.mark; last = self.now.stood.mark } }
    {
        let mark = self.mark();
        Ends {
            first: mark,
            last: mark,
        }
    }

    /// Where each of its lines is cut. Of lines without cuts it is `none`, an empty list.
    pub fn cuts<'a>(&'a self, none: &'a Cuts) -> &'a Cuts
        requires { none.now.items ≡ [] }
        ensures { result.now.items ≡ self.now.stood.cuts }
    {
        match &self.kept {
            Kept::Uncut { .. } => none,
            Kept::Few { cuts, .. } => cuts,
            Kept::Many { cuts, .. } => cuts,
        }
    }
}

impl Item for Stretch {
    ghost use Rattle.wrap_map.specs.inside.Stretches.{extent_of};

    type Sum = Extent;

    ghost summary = { extent_of };

    fn sum(&self) -> Extent {
        let lines = self.lines();
        Extent {
            lines,
            rows: lines + self.cut_count(),
            switches: 0,
            ends: Some(self.ends()),
        }
    }

    fn copy(&self, _alloc: Global) -> Result<Stretch, NoMemory> {
        self.copied()
    }
}
