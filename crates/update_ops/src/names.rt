//! Names of operators.
ghost use Rattle.std.specs.Prelude.{◌≡◌};
ghost use Rattle.update_model.specs.Reading.{name_of as name_in};

use update_model::OperatorName;

/// The operator of this name.
pub fn name_of(text: &str) -> Option<OperatorName>
    ensures { result ≡ name_in text.now }
{
    match text {
        "$set" => Some(OperatorName::Set),
        "$unset" => Some(OperatorName::Unset),
        "$inc" => Some(OperatorName::Inc),
        "$mul" => Some(OperatorName::Mul),
        "$rename" => Some(OperatorName::Rename),
        "$push" => Some(OperatorName::Push),
        "$addToSet" => Some(OperatorName::AddToSet),
        "$pop" => Some(OperatorName::Pop),
        "$pull" => Some(OperatorName::Pull),
        _ => None,
    }
}
