//! The law of long texts. The function does nothing, and its caller learns the law.
ghost use Rattle.schedule_input.specs.Inputs.{LongTextsAreCut};

/// A text of more bytes than a schedule has is judged by its first bytes.
#[tactic(auto, using(crate::proofs::Cutting::long_texts_are_cut))]
pub fn long_texts_are_cut()
    ensures { LongTextsAreCut }
{}
