//! The lines of a schedule that are still to be run.
ghost use Rattle.std.specs.Prelude.{◌≡◌, ◌∷◌, [], MatchOption};

use crate::schedule::NumberedLine;
use bson_value::List;
use std::marker::Model;
use std::vec::IntoIter;

/// Lines in order, each of which is given away once. What a line held is free again as soon as it was run, so that a run takes no
/// more memory for the lines that are behind it.
#[derive(Drop)]
pub struct LineQueue {
    lines: IntoIter<NumberedLine>,
}

impl Model for LineQueue {
    ghost use Rattle.std.specs.Prelude.{List, ◌≡◌, length};
    ghost use Rattle.std.specs.Vec.Iter.{into_iter_items, into_iter_len};
    ghost use Rattle.std.specs.Coded.{coded_list};
    ghost use Rattle.schedule_text.specs.declared.schedule.NumberedLine.{NumberedLine};
    ghost use Rattle.schedule_text.specs.contracts.schedule.NumberedLine as line;

    ghost Value = { List NumberedLine };

    ghost coded = { coded_list line.the_row.coded };

    ghost view = { λ q. into_iter_items q.lines };

    ghost invariant = { λ q. into_iter_len q.lines ≡ length (into_iter_items q.lines) };
}

impl LineQueue {
    /// All of these lines.
    pub fn of(lines: List<NumberedLine>) -> LineQueue
        ensures { result ≡ lines }
    {
        LineQueue {
            lines: lines.into_vec().into_iter(),
        }
    }

    /// Takes the next line out.
    pub fn next(&mut self) -> Option<NumberedLine>
        ensures { MatchOption result ((self.old ≡ []) × (self.new ≡ [])) (λ line. self.old ≡ line ∷ self.new) }
    {
        self.lines.next()
    }
}
