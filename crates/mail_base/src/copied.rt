// What can be copied where there is memory.
ghost use Rattle.std.specs.Prelude.{◌≡◌, IfOk};

use crate::{Claim, MapRow, Member, StrikeMark, ToldItem};
use std::alloc::AllocError;

/// A value that can be made once more, where there is memory.
pub trait Copied {
    /// The same value once more.
    ///
    /// # Errors
    ///
    /// Out of memory alone.
    fn copy(&self) -> Result<Self, AllocError>
        ensures { IfOk result (λ copy. copy ≡ self.now) };
}

impl Copied for Claim {
    fn copy(&self) -> Result<Claim, AllocError> {
        Ok(*self)
    }
}

impl Copied for MapRow {
    fn copy(&self) -> Result<MapRow, AllocError> {
        Ok(*self)
    }
}

impl Copied for Member {
    fn copy(&self) -> Result<Member, AllocError> {
        Ok(*self)
    }
}

impl Copied for StrikeMark {
    fn copy(&self) -> Result<StrikeMark, AllocError> {
        Ok(*self)
    }
}

impl Copied for ToldItem {
    fn copy(&self) -> Result<ToldItem, AllocError> {
        Ok(*self)
    }
}
