//! What a copy of the board holds.
use crate::kept::Kept;
use left_right::Absorb;
use std::alloc::AllocError;

/// The version that is shown.
#[derive(Drop)]
pub struct Shown {
    pub kept: Kept,
}

impl Absorb<Kept> for Shown {
    type State = Kept;

    ghost state = { λ s. s.kept };

    // The last operation wins.
    ghost applied = { λ old next. next };

    fn absorb_first(&mut self, operation: &Kept, _other: &Shown) -> Result<(), AllocError> {
        self.kept = operation.share()?;
        Ok(())
    }

    fn absorb_second(&mut self, operation: Kept, _other: &Shown) -> Result<(), Kept> {
        self.kept = operation;
        Ok(())
    }
}
