//! The laws of the steps of a dump.
ghost use Rattle.dump_steps.specs.Laws.{StepsFollow};

/// The steps of a dump whose outcome is Done read kept documents of the collections that stood at its start, and in
/// what they write no namespace goes on behind its end, and each one has its end.
pub fn steps_follow()
    ensures { StepsFollow }
{}
