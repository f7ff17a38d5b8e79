//! One edit of a patch: which new positions replace which old ones.
ghost use Rattle.std.specs.Prelude.{◌≡◌, ◌↔◌, ℕ, IsTrue};

/// A replacement: the new positions from `new_start` up to `new_end` replace the old ones from `old_start` up to
/// `old_end`. The ends are exclusive.
#[derive(Clone, Copy, Debug, PartialEq, Eq)]
pub struct Edit {
    pub old_start: u32,
    pub old_end: u32,
    pub new_start: u32,
    pub new_end: u32,
}

impl Edit {
    ghost use Rattle.edit_patch.specs.Came.{flipped};
    ghost use Rattle.edit_patch.specs.Patch.{IsNext};

    /// The edit with its sides changed over.
    pub(crate) fn flip(&self) -> Edit
        ensures { result ≡ flipped self.now }
    {
        Edit {
            old_start: self.new_start,
            old_end: self.new_end,
            new_start: self.old_start,
            new_end: self.old_end,
        }
    }

    /// Whether the edit may follow, in a patch, what ends at `old` and `new`, after at least `gap` kept positions.
    pub(crate) fn follows(&self, gap: u32, old: u32, new: u32) -> bool
        ensures { IsTrue result ↔ IsNext gap old new self.now }
    {
        let kept_old = u64::from(self.old_start) + u64::from(new);
        let kept_new = u64::from(self.new_start) + u64::from(old);
        let is_ordered = self.old_start <= self.old_end && self.new_start <= self.new_end;
        let is_empty = self.old_start == self.old_end && self.new_start == self.new_end;
        u64::from(old) + u64::from(gap) <= u64::from(self.old_start)
            && kept_old == kept_new
            && is_ordered
            && !is_empty
    }
}
