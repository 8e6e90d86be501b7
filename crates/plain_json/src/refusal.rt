//! Why a text was not read.
ghost use Rattle.std.specs.Prelude.{◌≡◌};
ghost use Rattle.plain_json.specs.declared.refusal.Refusal.TheVariants.{NoMemory};

use std::alloc::AllocError;

/// Why a text was not read.
pub(crate) enum Refusal {
    NoMemory,
    /// The text is not told to be plain.
    NotPlain,
}

impl From<AllocError> for Refusal {
    ghost from_gives = { λ _ e. e ≡ NoMemory };

    fn from(_e: AllocError) -> Refusal {
        Refusal::NoMemory
    }
}
