//! The laws of the place at which a text is refused. Each function does nothing, and its caller learns the law.
ghost use Rattle.json_faults.specs.Faults.{ContinuesToItsFault, RefusedAtItsEnd, RefusedAtItsToken, RefusedWithin};

/// The place at which `parse` refuses a text is at most the text's length.
pub fn refused_within()
    ensures { RefusedWithin }
{}

/// Where `parse` refuses a text, something that begins with the bytes before the place is a JSON text within
/// the limits.
pub fn continues_to_its_fault()
    ensures { ContinuesToItsFault }
{}

/// Where `parse` refuses a text at a place before its end, nothing that begins with the text up to the end
/// of the token at that place is a JSON text within the limits.
pub fn refused_at_its_token()
    ensures { RefusedAtItsToken }
{}

/// `parse` refuses a text at its length exactly where something that begins with the text is a JSON text
/// within the limits: the text ends too early.
pub fn refused_at_its_end()
    ensures { RefusedAtItsEnd }
{}
