//! How many items entries have.
ghost use Rattle.std.specs.Prelude.{◌≡◌, ◌-◌, ◌^◌, min, map};
ghost use Rattle.replay.specs.Moves.{item_count, total};

use entry_model::{Action, Entry};

/// The number of items of an entry, those of groups within groups too: 1 where it is no group. A
/// number that is too large is the greatest one of its type.
#[cycle(counting)]
pub fn item_count(entry: &Entry) -> u128
    ensures { result ≡ min (item_count entry.now) (2 ^ 128 - 1) }
{
    match &entry.action {
        Action::Group { entries } => count_all(entries.as_slice()),
        _ => 1,
    }
}

#[cycle(counting)]
fn count_all(entries: &[Entry]) -> u128
    ensures { result ≡ min (total (map item_count entries.now)) (2 ^ 128 - 1) }
{
    let mut count = 0u128;
    for entry in entries {
        count = count.saturating_add(item_count(entry));
    }
    count
}
