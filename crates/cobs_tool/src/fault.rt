//! The faults that end a mode early.
ghost use Rattle.std.specs.Prelude.{◌≡◌};
ghost use Rattle.cobs_tool.specs.declared.fault.ToolFault.TheVariants.{OutOfMemory};

use std::alloc::AllocError;

/// The reason why a mode ended early.
#[derive(Debug, PartialEq, Eq, Drop)]
pub enum ToolFault {
    /// A read of the input failed, or was interrupted. Nothing has been written.
    ReadFailed,

    /// A write of the output failed. Part of the output may have been written.
    WriteFailed,

    /// Memory ran out. Nothing has been written.
    OutOfMemory,

    /// The input is longer than the program accepts. Nothing has been written.
    InputTooLong,
}

impl From<AllocError> for ToolFault {
    // This clause states the result of `from`. It is used to prove callers in which `?` converts an `AllocError`.
    ghost from_gives = { λ _ fault. fault ≡ OutOfMemory };

    fn from(_error: AllocError) -> ToolFault {
        ToolFault::OutOfMemory
    }
}
