//! Why a text is no schedule.
ghost use Rattle.std.specs.Prelude.{◌≡◌};
ghost use Rattle.schedule_text.specs.declared.fault.LineFault.TheVariants.{NoMemory as no_lines};
ghost use Rattle.schedule_text.specs.declared.fault.StatementFault.TheVariants.{NoMemory as no_statement};

use std::alloc::{AllocError, AllocFailed};
use thiserror::Error;

/// What is wrong with a line.
#[derive(Clone, Copy, Debug, PartialEq, Eq)]
pub enum LineKind {
    /// It isn't UTF-8.
    Utf8 = 1,
    /// Its first word is none of a line.
    Command = 2,
    /// It has too few words or too many, or an empty one, or names no form of entries.
    Words = 3,
    /// A number isn't written as one, or is out of its range.
    Number = 4,
    /// A namespace has no dot, or nothing before or behind it.
    Name = 5,
    /// What should be JSON isn't.
    Json = 6,
    /// The JSON stands for no value.
    Extended = 7,
    /// The value is no document, or has no `_id` where one is needed, or more than an `_id` where that stands
    /// alone.
    Shape = 8,
    /// The line can't stand where it stands.
    Place = 9,
    /// The line goes past the longest schedule.
    Limit = 10,
}

/// Why a text was not read as a schedule.
#[derive(Clone, Copy, Debug, PartialEq, Eq, Error)]
pub enum LineFault {
    #[error("no memory")]
    NoMemory,
    /// The first line that isn't one of a schedule, from 1.
    #[error("bad line {line}")]
    Bad { line: u32, kind: LineKind },
}

impl From<AllocError> for LineFault {
    ghost from_gives = { λ _ e. e ≡ no_lines };

    fn from(_e: AllocError) -> LineFault {
        LineFault::NoMemory
    }
}

/// Why a line was not read.
#[derive(Clone, Copy)]
pub(crate) enum StatementFault {
    NoMemory,
    Bad(LineKind),
}

impl From<AllocError> for StatementFault {
    ghost from_gives = { λ _ e. e ≡ no_statement };

    fn from(_e: AllocError) -> StatementFault {
        StatementFault::NoMemory
    }
}

impl<T: Drop> From<AllocFailed<T>> for StatementFault {
    ghost from_gives = { λ _ e. e ≡ no_statement };

    fn from(_e: AllocFailed<T>) -> StatementFault {
        StatementFault::NoMemory
    }
}
