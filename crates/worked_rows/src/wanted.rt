//! What a call must answer.
ghost use Rattle.std.specs.Prelude.{◌≡◌, [], None};
ghost use Rattle.worked_rows.specs.Wanted.{are_wanted, is_wanted, is_wanted_front};

use crate::call::Answer;
use std::alloc::Global;

/// The wanted answer of a call.
#[derive(Drop)]
pub struct Wanted {
    pub status: u8,
    pub output: Vec<u8>,
    pub report: Vec<u8>,
    /// How many bytes of output there must be, where these don't stand in the script.
    pub length: Option<usize>,
    /// And how many of the report.
    pub told: Option<usize>,
}

// Whether these bytes are the wanted ones, or are so many where their number alone is wanted.
fn are_wanted(bytes: &[u8], wanted: &[u8], count: Option<usize>) -> bool
    ensures { result ≡ are_wanted count wanted.now bytes.now }
{
    match count {
        Some(count) => bytes.len() == count,
        None => bytes == wanted,
    }
}

impl Wanted {
    /// Status 0, and nothing written.
    pub fn new(alloc: Global) -> Wanted
        ensures { (result.status ≡ 0) × (result.output.items ≡ []) × (result.report.items ≡ []) × (result.length ≡ None) × (result.told ≡ None) }
    {
        Wanted {
            status: 0,
            output: Vec::new(alloc),
            report: Vec::new(alloc),
            length: None,
            told: None,
        }
    }

    /// Whether a call answered this.
    pub fn is(&self, answer: &Answer) -> bool
        ensures { result ≡ is_wanted self.now answer.now }
    {
        answer.status == self.status
            && are_wanted(&answer.report, &self.report, self.told)
            && are_wanted(&answer.output, &self.output, self.length)
    }

    /// Whether a call with a failing end answered this: its output is some front of that of a call without a failure.
    pub fn is_front(&self, answer: &Answer, whole: &Answer) -> bool
        ensures { result ≡ is_wanted_front self.now answer.now whole.now }
    {
        answer.status == self.status
            && answer.report == self.report
            && whole.output.as_slice().starts_with(&answer.output)
    }
}
