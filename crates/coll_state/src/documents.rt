//! The documents of a collection in the order of the keys of their `_id`s.
ghost use Rattle.std.specs.Prelude.{◌≡◌};
ghost use Rattle.std.specs.Option.{option_copied};
ghost use Rattle.coll_state.specs.Documents.{under, values_under, records_in, AreNumbered};
ghost use Rattle.coll_state.specs.Rows.{Rising};
ghost use Rattle.coll_state.specs.Stock.{rows_in};

use crate::collection::{NumberedKey, Record, rank_of};
use bson_view::Held;
use sorted_list::{SortedList, Walk};
use std::marker::Model;

/// The documents that are still to come, in the order of the keys of their `_id`s: by the type byte, and
/// then by the bytes. Each takes a search among the record numbers.
#[derive(Drop)]
pub struct Documents<'a> {
    numbers: Walk<'a, NumberedKey>,
    records: Option<&'a SortedList<Record>>,
}

impl<'a> Model for Documents<'a> {
    ghost use Rattle.std.specs.Prelude.{List};
    ghost use Rattle.std.specs.Coded.{coded_list};
    ghost use Rattle.bson_value.specs.declared.value.Value.{Value as Datum};
    ghost use Rattle.bson_value.specs.contracts.value.Value as value;

    ghost Value = { List Datum };

    ghost coded = { coded_list value.the_row.coded };

    ghost use Rattle.coll_state.specs.Documents.{values_under, records_in, AreNumbered};

    ghost view = { λ d. values_under d.numbers (records_in d.records) };

    ghost invariant = { λ d. AreNumbered d.numbers (records_in d.records) };
}

fn record_under<'a>(records: Option<&'a SortedList<Record>>, no: u128) -> Option<&'a Record>
    ensures { Rising 0 (rows_in (records_in records.entry)) → option_copied result ≡ under (records_in records.entry) no }
{
    match records {
        Some(records) => records.find_near(rank_of(no), |record| record.no.cmp(&no)),
        None => None,
    }
}

impl<'a> Documents<'a> {
    pub(crate) fn of(
        numbers: Walk<'a, NumberedKey>,
        records: Option<&'a SortedList<Record>>,
    ) -> Documents<'a>
        requires { AreNumbered numbers (records_in records) }
        ensures { result ≡ values_under numbers.entry (records_in records.entry) }
    {
        Documents { numbers, records }
    }
}

impl<'a> Iterator for Documents<'a> {
    ghost use Rattle.std.specs.Iterator.{YieldsFirstBy, item_count};
    ghost use Rattle.bson_value.specs.declared.value.Value.{Object};
    ghost use Rattle.bson_view.specs.Held.{held_document};

    type Item = Held<'a>;

    ghost next_gives = { YieldsFirstBy (λ h. Object (held_document h)) (λ d. d) };

    ghost remaining = { item_count (λ d. d) };

    fn next(&mut self) -> Option<Held<'a>> {
        let first = self.numbers.next()?;
        match record_under(self.records, first.no) {
            Some(record) => Some(record.document.look()),
            None => unreachable!(),
        }
    }
}
