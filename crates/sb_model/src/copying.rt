ghost use Rattle.std.specs.Prelude.{◌≡◌, IfOk};

use crate::OutOfMemory;

/// A value that can be made once more, where memory is there for it.
pub trait TryCopy {
    fn try_copy(&self) -> Result<Self, OutOfMemory>
    where
        Self: Sized,
        ensures { IfOk result (λ copy. copy ≡ self.now) };
}
