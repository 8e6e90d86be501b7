//! The laws of states. Each function does nothing, and its caller learns the law.
ghost use Rattle.state_model.specs.Laws.{CoverHereditarily, MovesChangeWhatTheyCover, ReplayKeepsSame, ReplayKeepsAgreement, ReplayAllKeepsAgreement, AgreedIsSame, SameIsShownAlike, MadeStays, MadeIsSettled, RecordHeals, WindowKeeps, WindowHeals, CutStands, CutReplay, OrdersAreTotal, OnlyEqualTie};

use bson_value::alike_looks_the_same;
use doc_path::covers_all_below;
use touch_laws::{changes_what_it_covers, done_touches, playing_keeps_agreement};

/// The orders of keys and of namespaces are total, and only equal names tie. So the laws of finite maps
/// hold of states.
pub fn names_are_ordered()
    ensures total { OrdersAreTotal }
    ensures ties { OnlyEqualTie }
{}

/// What a list of moves covers, it covers with all that is below.
pub fn moves_cover_all_below()
    ensures { CoverHereditarily }
{
    covers_all_below();
}

/// A move changes nothing but what it covers in the state on which its write was made.
pub fn moves_change_what_they_cover()
    ensures { MovesChangeWhatTheyCover }
{
    changes_what_it_covers();
}

/// Moves that fit the second state are replayed on both. What they covered agrees from then on,
/// whatever else may differ so long as it differs in all that is below.
pub fn replay_keeps_agreement()
    ensures same { ReplayKeepsSame }
    ensures one { ReplayKeepsAgreement }
    ensures all { ReplayAllKeepsAgreement }
{
    covers_all_below();
    playing_keeps_agreement();
}

/// Two states agree for no moves exactly where the same stands in both at each place.
pub fn agreed_for_no_moves()
    ensures { AgreedIsSame }
{}

/// The same stands at each place of two states exactly where a listing shows them alike.
pub fn same_is_shown_alike()
    ensures { SameIsShownAlike }
{
    alike_looks_the_same();
}

/// Where what a move makes stands already, it fits and changes nothing.
pub fn made_moves()
    ensures stays { MadeStays }
    ensures settled { MadeIsSettled }
{
    done_touches();
}

/// The moves that record a write, replayed on a state that agrees with the one before the write, give
/// one that agrees with the one after it.
pub fn record_heals()
    ensures { RecordHeals }
{
    replay_keeps_agreement();
}

/// What the moves of writes in a row don't cover stays, and a state that differs at most there from the
/// one before them is, once the moves are replayed on it, the same as the one after them.
pub fn window_heals()
    ensures keeps { WindowKeeps }
    ensures heals { WindowHeals }
{
    record_heals();
}

/// A cut state has what stands in the collections that the filter takes. To replay what a filter takes
/// on the part that it takes is to replay all, and to cut then.
pub fn cut_is_replayed()
    ensures stands { CutStands }
    ensures replay { CutReplay }
{}
