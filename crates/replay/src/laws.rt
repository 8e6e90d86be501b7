//! The law of steps. The function does nothing, and its caller learns it.
ghost use Rattle.replay.specs.Steps.{MadeIsReplayed};

/// Steps that were made, one after the other, make what their moves make.
pub fn made_steps()
    ensures { MadeIsReplayed }
{}
