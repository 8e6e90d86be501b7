//! Walks over the collections of a state, and over the documents of one.
ghost use Rattle.std.specs.Prelude.{◌≡◌, take};
ghost use Rattle.std.specs.FinMap as map;
ghost use Rattle.coll_state.specs.Stock.{rows_in};
ghost use Rattle.coll_state.specs.Tables.{tables_in};

use crate::collection::{Collection, Record};
use crate::tables::Tables;
use bson_value::NsName;
use bson_view::Held;
use sorted_list::Walk;
use std::collections::btree_map::Keys;

/// The names of collections that are still to come, in order.
#[derive(Drop)]
pub struct Namespaces<'a> {
    names: Keys<'a, NsName, Collection>,
}

impl<'a> Namespaces<'a> {
    ghost use Rattle.coll_state.specs.Walks.{names_left};

    pub(crate) fn of(tables: &'a Tables) -> Namespaces<'a>
        ensures { names_left result ≡ map.keys (tables_in tables.now) }
    {
        Namespaces {
            names: tables.keys(),
        }
    }
}

impl<'a> Iterator for Namespaces<'a> {
    ghost use Rattle.std.specs.Iterator.{YieldsFirstRef, item_count};
    ghost use Rattle.coll_state.specs.Walks.{names_left};

    type Item = &'a NsName;

    ghost next_gives = { YieldsFirstRef names_left };

    ghost remaining = { item_count names_left };

    fn next(&mut self) -> Option<&'a NsName> {
        self.names.next()
    }
}

/// The documents that are still to come, in record order, with their numbers.
#[derive(Drop)]
pub struct After<'a> {
    records: Walk<'a, Record>,
    left: usize,
}

impl<'a> After<'a> {
    ghost use Rattle.coll_state.specs.Walks.{looks, looks_left};

    pub(crate) fn of(records: Walk<'a, Record>, left: usize) -> After<'a>
        ensures { looks_left result ≡ looks (rows_in (take left records.entry)) }
    {
        After { records, left }
    }
}

impl<'a> Iterator for After<'a> {
    ghost use Rattle.std.specs.Iterator.{YieldsFirstBy, item_count};
    ghost use Rattle.coll_state.specs.Walks.{item_of, looks_left};

    type Item = (u128, Held<'a>);

    ghost next_gives = { YieldsFirstBy item_of looks_left };

    ghost remaining = { item_count looks_left };

    fn next(&mut self) -> Option<(u128, Held<'a>)> {
        self.left = self.left.checked_sub(1)?;
        let first = self.records.next()?;
        Some((first.no, first.document.look()))
    }
}
