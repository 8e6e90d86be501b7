//! Parts of an array by rising index.
ghost use Rattle.std.specs.Prelude.{◌≡◌, [], ◌∷◌, ◌++◌, List, IfOk, OnOk};
ghost use Rattle.entry_writer.specs.Groups.{Group, group_in, groups_in};
ghost use Rattle.entry_writer.specs.Order.{put_rising, risen, parts_of, IsOnce, laid, IsLaid};

use crate::parts::PartEdits;
use doc_path::Part;
use std::alloc::{AllocError, Global};
use std::collections::BTreeMap;

/// Puts the indexes before what is behind them, which stands the last first.
fn unload<'t>(
    front: &mut BTreeMap<u32, PartEdits<'t>>,
    behind: &mut Vec<PartEdits<'t>>,
) -> Result<(), AllocError>
    ensures all { OnOk result (laid [] behind.new.items ≡ laid front.old.entries behind.old.items) }
    ensures empty { OnOk result (front.new.entries ≡ []) }
{
    'left: while let Some((_, group)) = front.pop_last() {
        behind.push(group)?;
    }
    Ok(())
}

/// Puts a part before all others: an index among the indexes there, and a name right there.
fn place<'t>(
    front: &mut BTreeMap<u32, PartEdits<'t>>,
    behind: &mut Vec<PartEdits<'t>>,
    group: PartEdits<'t>,
) -> Result<(), AllocError>
    ensures all { (left : List Group) → IsLaid front.old behind.old.items (left ++ group_in group.entry ∷ []) → OnOk result (laid front.new.entries behind.new.items ≡ put_rising (group_in group.entry) (laid front.old.entries behind.old.items)) }
    ensures laid { (left : List Group) → IsLaid front.old behind.old.items (left ++ group_in group.entry ∷ []) → OnOk result (IsLaid front.new behind.new.items left) }
{
    match group.part {
        Part::Index(at) => {
            let _ = front.insert(*at, group)?;
            Ok(())
        }
        Part::Name(_) => {
            unload(front, behind)?;
            behind.push(group)?;
            Ok(())
        }
    }
}

/// The parts by rising index, each with its edits.
pub(crate) fn rising<'t>(
    alloc: Global,
    groups: Vec<PartEdits<'t>>,
) -> Result<Vec<PartEdits<'t>>, AllocError>
    requires { IsOnce (parts_of (groups_in groups.items)) }
    ensures { IfOk result (λ gs. groups_in gs.items ≡ risen (groups_in groups.entry.items)) }
{
    let mut left = groups;
    let mut front = BTreeMap::new(alloc);
    let mut behind = Vec::new(alloc);
    'left: while let Some(group) = left.pop() {
        place(&mut front, &mut behind, group)?;
    }
    unload(&mut front, &mut behind)?;
    behind.reverse();
    Ok(behind)
}
