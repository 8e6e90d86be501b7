//! Wrappers by their outermost names.
ghost use Rattle.std.specs.Prelude.{◌≡◌};
ghost use Rattle.extjson.specs.Wrappers.{wrapper_of};

/// What an object with an outermost name of the table stands for.
#[derive(Clone, Copy)]
pub(crate) enum Wrapper {
    Int,
    Long,
    Double,
    DoubleBits,
    Decimal,
    DecimalBits,
    Binary,
    Undefined,
    Oid,
    Date,
    Regex,
    Pointer,
    Code,
    Symbol,
    Stamp,
    MinKey,
    MaxKey,
}

impl Wrapper {
    /// The wrapper of this outermost name. All of them begin with a dollar sign, and most names don't.
    pub(crate) fn named(name: &str) -> Option<Wrapper>
        ensures { result ≡ wrapper_of name.now }
    {
        match name.as_bytes().first() {
            Some(36) => Wrapper::in_table(name),
            _ => None,
        }
    }

    // The wrapper of this name, looked up in the table.
    #[tactic(auto, unfolding(crate::specs::Wrappers::wrapper_of, crate::specs::Wrappers::outermost_names))]
    fn in_table(name: &str) -> Option<Wrapper>
        ensures { result ≡ wrapper_of name.now }
    {
        match name {
            "$numberInt" => Some(Wrapper::Int),
            "$numberLong" => Some(Wrapper::Long),
            "$numberDouble" => Some(Wrapper::Double),
            "$numberDoubleBits" => Some(Wrapper::DoubleBits),
            "$numberDecimal" => Some(Wrapper::Decimal),
            "$numberDecimalBits" => Some(Wrapper::DecimalBits),
            "$binary" => Some(Wrapper::Binary),
            "$undefined" => Some(Wrapper::Undefined),
            "$oid" => Some(Wrapper::Oid),
            "$date" => Some(Wrapper::Date),
            "$regularExpression" => Some(Wrapper::Regex),
            "$dbPointer" => Some(Wrapper::Pointer),
            "$code" => Some(Wrapper::Code),
            "$symbol" => Some(Wrapper::Symbol),
            "$timestamp" => Some(Wrapper::Stamp),
            "$minKey" => Some(Wrapper::MinKey),
            "$maxKey" => Some(Wrapper::MaxKey),
            _ => None,
        }
    }
}
