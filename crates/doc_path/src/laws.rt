//! Laws of what touches cover, and of what replay leaves at once. Each function does nothing, and its
//! caller learns the law.
ghost use Rattle.doc_path.specs.Laws.{CoversAllBelow, CoversHereditarily, CoversNoRoot, LeftAtOnce, LeftStays, OthersArePlayed, ChangeIsPlayed, FarChangeStays};

/// What covers a place covers all that is below it. No touch covers a whole document.
pub fn covers_all_below()
    ensures below { CoversAllBelow }
    ensures hereditary { CoversHereditarily }
    ensures root { CoversNoRoot }
{}

/// Replay leaves at once a touch whose place begins with the name `_id`, one with an index or a length
/// of 2,097,152 or more, and no other. What is left changes nothing.
pub fn left_at_once()
    ensures exactly { LeftAtOnce }
    ensures stays { LeftStays }
    ensures others { OthersArePlayed }
{}

/// A change that `change_document` makes is the touch at its place, played; unless that is left at once.
pub fn changes_are_played()
    ensures played { ChangeIsPlayed }
    ensures stays { FarChangeStays }
{}
