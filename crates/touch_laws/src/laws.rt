//! Laws of touches. Each function does nothing, and its caller learns the law.
ghost use Rattle.touch_laws.specs.Laws.{CoverHereditarily, AgreesWithItself, AgreedIsAlike, MoreTouchesAgree, DifferencesAreCovered, ChangesWhatItCovers, PlayingKeepsSame, PlayingKeepsAgreement, PlayingAllKeepsAgreement, DoneStays, DoneFits, RecordLaw, RecordIsAlike, RecordHeals, AnyOrderRecords};

/// What a list of touches covers, it covers with all that is below.
pub fn touches_cover_all_below()
    ensures { CoverHereditarily }
{}

/// A document agrees with itself for no touches.
pub fn agrees_with_itself()
    ensures { AgreesWithItself }
{}

/// Two documents agree for no touches exactly where they are equal up to the order of fields.
pub fn agreed_for_no_touches()
    ensures { AgreedIsAlike }
{}

/// Documents that agree for some touches agree for any touches among which those are.
pub fn more_touches_agree()
    ensures { MoreTouchesAgree }
{}

/// Each place at which two documents that agree differ is covered.
pub fn differences_are_covered()
    ensures { DifferencesAreCovered }
{}

/// A touch that fits a document changes nothing in it but what it covers.
pub fn changes_what_it_covers()
    ensures { ChangesWhatItCovers }
{}

/// Touches that fit the second document are played on both. What they covered agrees from then on,
/// whatever else may differ so long as it differs in all that is below.
pub fn playing_keeps_agreement()
    ensures same { PlayingKeepsSame }
    ensures one { PlayingKeepsAgreement }
    ensures all { PlayingAllKeepsAgreement }
{}

/// A touch with nothing left to do fits, and changes nothing.
pub fn done_touches()
    ensures stays { DoneStays }
    ensures fits { DoneFits }
{}

/// The touches that record an update, played on the old document, give at every place what stands in
/// the new one; so the two are equal up to the order of fields.
pub fn record_law()
    ensures looks { RecordLaw }
    ensures alike { RecordIsAlike }
{}

/// Played on a document that agrees with the old one, they give one that agrees with the new one.
pub fn record_heals()
    ensures { RecordHeals }
{}

/// The same touches record an update in any order.
pub fn any_order_records()
    ensures { AnyOrderRecords }
{}
