//! Why an input gives no schedule.
ghost use Rattle.std.specs.Prelude.{◌≡◌};

use schedule_text::LineKind;
use std::alloc::AllocError;

/// Why an input gives no schedule.
#[derive(Clone, Copy, Debug, PartialEq, Eq)]
pub enum InputFault {
    /// The first line that isn't one of a schedule, from 1.
    Bad { line: u32, kind: LineKind },
    /// A read failed.
    ReadFault,
    NoMemory,
}

impl From<AllocError> for InputFault {
    ghost use Rattle.schedule_input.specs.declared.fault.InputFault.TheVariants.{NoMemory};

    ghost from_gives = { λ _ e. e ≡ NoMemory };

    fn from(_e: AllocError) -> InputFault {
        InputFault::NoMemory
    }
}
