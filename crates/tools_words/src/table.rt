//! The commands, their options, and the rules of these.
ghost use Rattle.std.specs.Prelude.{◌≡◌, bytes_eq};
ghost use Rattle.tools_words.specs.Values.{row_of};
ghost use Rattle.tools_words.specs.Words.{name_of, commands, options, rules, same_option};

use crate::value::Kind;

/// What the first word names.
#[derive(Clone, Copy, Debug, PartialEq, Eq)]
pub enum Verb {
    Source,
    Dump,
    Restore,
    Drill,
    Help,
    Version,
}

/// An option of a command.
#[derive(Clone, Copy, Debug, PartialEq, Eq)]
pub enum OptionName {
    Archive,
    Oplog,
    OplogReplay,
    OplogLimit,
    NsInclude,
    NsExclude,
    NsFrom,
    NsTo,
    Form,
    Rounds,
}

/// How often an option may stand.
#[derive(Clone, Copy, Debug, PartialEq, Eq)]
pub enum Times {
    Once,
    Any,
}

/// A row of the table: an option that may stand behind a command. A word without a name, as a number alone, is an option with the
/// empty name.
#[derive(Clone, Copy, Debug, PartialEq, Eq)]
pub struct OptionRow {
    pub option: OptionName,
    pub kind: Kind,
    pub times: Times,
}

/// What the options of a command must meet once all were read.
#[derive(Clone, Copy, Debug, PartialEq, Eq)]
pub enum Rule {
    /// This option stands.
    Needed(OptionName),
    /// The first stands only beside the second.
    Needs(OptionName, OptionName),
    /// They don't stand together.
    Excludes(OptionName, OptionName),
    /// They stand equally often.
    Equal(OptionName, OptionName),
    /// The patterns of the first have as many stars as those of the second, each as the one beside it.
    SameStars(OptionName, OptionName),
}

impl OptionName {
    /// The front of the option's word: all of it, or what stands before its value.
    pub fn name(self) -> &'static str
        ensures { result.now ≡ name_of self }
    {
        match self {
            OptionName::Archive => "--archive",
            OptionName::Oplog => "--oplog",
            OptionName::OplogReplay => "--oplogReplay",
            OptionName::OplogLimit => "--oplogLimit=",
            OptionName::NsInclude => "--nsInclude=",
            OptionName::NsExclude => "--nsExclude=",
            OptionName::NsFrom => "--nsFrom=",
            OptionName::NsTo => "--nsTo=",
            OptionName::Form => "--form=",
            OptionName::Rounds => "",
        }
    }

    /// Whether they are one option.
    pub fn is_same(self, other: OptionName) -> bool
        ensures { result ≡ same_option self other }
    {
        self.name() == other.name()
    }
}

impl Verb {
    /// The command that a word names.
    pub fn of(word: &str) -> Option<Verb>
        ensures { result ≡ row_of commands word.now }
    {
        match word {
            "source" => Some(Verb::Source),
            "dump" => Some(Verb::Dump),
            "restore" => Some(Verb::Restore),
            "drill" => Some(Verb::Drill),
            "--help" => Some(Verb::Help),
            "--version" => Some(Verb::Version),
            _ => None,
        }
    }

    /// The options that may stand behind it, in any order.
    pub fn options(self) -> &'static [OptionRow]
        ensures { result.now ≡ options self }
    {
        match self {
            Verb::Source => &[
                OptionRow {
                    option: OptionName::OplogLimit,
                    kind: Kind::Moment,
                    times: Times::Once,
                },
                OptionRow {
                    option: OptionName::Form,
                    kind: Kind::Form,
                    times: Times::Once,
                },
            ],
            Verb::Dump => &[
                OptionRow {
                    option: OptionName::Archive,
                    kind: Kind::Nothing,
                    times: Times::Once,
                },
                OptionRow {
                    option: OptionName::Oplog,
                    kind: Kind::Nothing,
                    times: Times::Once,
                },
            ],
            Verb::Restore => &[
                OptionRow {
                    option: OptionName::Archive,
                    kind: Kind::Nothing,
                    times: Times::Once,
                },
                OptionRow {
                    option: OptionName::OplogReplay,
                    kind: Kind::Nothing,
                    times: Times::Once,
                },
                OptionRow {
                    option: OptionName::OplogLimit,
                    kind: Kind::Moment,
                    times: Times::Once,
                },
                OptionRow {
                    option: OptionName::NsInclude,
                    kind: Kind::Pattern,
                    times: Times::Any,
                },
                OptionRow {
                    option: OptionName::NsExclude,
                    kind: Kind::Pattern,
                    times: Times::Any,
                },
                OptionRow {
                    option: OptionName::NsFrom,
                    kind: Kind::Pattern,
                    times: Times::Any,
                },
                OptionRow {
                    option: OptionName::NsTo,
                    kind: Kind::Pattern,
                    times: Times::Any,
                },
                OptionRow {
                    option: OptionName::Form,
                    kind: Kind::Form,
                    times: Times::Once,
                },
            ],
            Verb::Drill => &[OptionRow {
                option: OptionName::Rounds,
                kind: Kind::Rounds,
                times: Times::Once,
            }],
            Verb::Help | Verb::Version => &[],
        }
    }

    /// What must hold of those that stand.
    pub fn rules(self) -> &'static [Rule]
        ensures { result.now ≡ rules self }
    {
        match self {
            Verb::Dump => &[
                Rule::Needed(OptionName::Archive),
                Rule::Needed(OptionName::Oplog),
            ],
            Verb::Restore => &[
                Rule::Needed(OptionName::Archive),
                Rule::Needs(OptionName::OplogLimit, OptionName::OplogReplay),
                Rule::Excludes(OptionName::NsFrom, OptionName::OplogReplay),
                Rule::Excludes(OptionName::NsTo, OptionName::OplogReplay),
                Rule::Equal(OptionName::NsFrom, OptionName::NsTo),
                Rule::SameStars(OptionName::NsFrom, OptionName::NsTo),
            ],
            Verb::Drill => &[Rule::Needed(OptionName::Rounds)],
            Verb::Source | Verb::Help | Verb::Version => &[],
        }
    }
}
