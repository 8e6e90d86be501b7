//! What a filter takes of an entry.
ghost use Rattle.std.specs.Prelude.{◌≡◌, filter};
ghost use Rattle.entry_model.specs.declared.entry.Action.{out-Action};
ghost use Rattle.restore_entries.specs.Cut.{takes_action, takes_entry, cut_action, cut_entry};

use bson_value::{List, NsName};
use entry_model::{Action, Entry};
use restore_filter::Filter;

fn takes_action(rules: &Filter, ns: &NsName, action: &Action) -> bool
    ensures { result ≡ takes_action rules.now ns.now (out-Action action.now) }
{
    match action {
        Action::DropDb | Action::Group { .. } => true,
        Action::Rename { from, to } => rules.takes(from) || rules.takes(to),
        Action::Other { .. } => rules.takes(ns) || ns.coll.as_str() == "$cmd",
        _ => rules.takes(ns),
    }
}

/// Whether the filter takes the entry. A group is always taken; its items may all be left out. It takes no memory.
pub fn takes_entry(rules: &Filter, entry: &Entry) -> bool
    ensures { result ≡ takes_entry rules.now entry.now }
{
    takes_action(rules, &entry.ns, &entry.action)
}

fn taken_of(rules: &Filter, mut entries: List<Entry>) -> List<Entry>
    ensures { result ≡ filter (takes_entry rules.now) entries }
{
    entries.retain(|entry| takes_entry(rules, entry));
    entries
}

fn cut_action(rules: &Filter, action: Action) -> Action
    ensures { result ≡ cut_action rules.now action (out-Action action) }
{
    match action {
        Action::Group { entries } => Action::Group {
            entries: taken_of(rules, entries),
        },
        whole => whole,
    }
}

/// The entry; of a group those of its items that the filter takes.
pub(crate) fn cut_entry(rules: &Filter, entry: Entry) -> Entry
    ensures { result ≡ cut_entry rules.now entry }
{
    let Entry { ts, ns, action } = entry;
    let action = cut_action(rules, action);
    Entry { ts, ns, action }
}
