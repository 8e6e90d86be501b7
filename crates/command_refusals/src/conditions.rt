//! The first row of a command on a document whose condition holds.
ghost use Rattle.std.specs.Prelude.{◌≡◌};
ghost use Rattle.command_refusals.specs.Conditions.{first_row};

use schedule_model::Refused;

/// What the rows ask of a command on a document. `tested` is what the indexes refuse.
#[derive(Clone, Copy)]
pub(crate) struct Conditions {
    pub(crate) no_namespace: bool,
    pub(crate) duplicate_id: bool,
    pub(crate) no_document: bool,
    pub(crate) tested: Option<Refused>,
    pub(crate) bad_document: bool,
    pub(crate) bad_update: bool,
    pub(crate) bad_name: bool,
}

/// The first row whose condition holds.
pub(crate) fn first_row(conditions: Conditions) -> Option<Refused>
    ensures { result ≡ first_row conditions }
{
    if conditions.no_namespace {
        return Some(Refused::NoSuchNamespace);
    }
    if conditions.duplicate_id {
        return Some(Refused::DuplicateId);
    }
    if conditions.no_document {
        return Some(Refused::NoSuchDocument);
    }
    if conditions.tested.is_some() {
        return conditions.tested;
    }
    if conditions.bad_document {
        return Some(Refused::BadDocument);
    }
    if conditions.bad_update {
        return Some(Refused::BadUpdate);
    }
    if conditions.bad_name {
        return Some(Refused::BadName);
    }
    None
}
