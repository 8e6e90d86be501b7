//! The first words of lines.
ghost use Rattle.std.specs.Prelude.{◌≡◌};
ghost use Rattle.schedule_text.specs.Words.{verb_of, least, most, has_text, may_stand};

/// What a line says by its first word.
#[derive(Clone, Copy)]
pub(crate) enum Verb {
    Oplog,
    Record,
    At,
    Create,
    DropColl,
    DropDatabase,
    Rename,
    Insert,
    Replace,
    Update,
    Delete,
    CreateIndex,
    DropIndex,
    Dump,
    Copy,
    Mark,
    Tail,
    Begin,
    Commit,
    Abort,
}

/// Where a line stands.
#[derive(Clone, Copy)]
pub(crate) enum Context {
    /// No line but those that are passed over stands before it.
    Start,
    /// Other lines do, and no transaction is open.
    Outside,
    /// In a transaction.
    Inside,
}

impl Verb {
    #[tactic(auto, unfolding(crate::specs::Words::verb_of, crate::specs::Words::verb_names))]
    pub(crate) fn named(word: &str) -> Option<Verb>
        ensures { result ≡ verb_of word.now }
    {
        // Most lines are of the first few.
        match word {
            "insert" => Some(Verb::Insert),
            "update" => Some(Verb::Update),
            "replace" => Some(Verb::Replace),
            "delete" => Some(Verb::Delete),
            "copy" => Some(Verb::Copy),
            "oplog" => Some(Verb::Oplog),
            "record" => Some(Verb::Record),
            "at" => Some(Verb::At),
            "create" => Some(Verb::Create),
            "drop" => Some(Verb::DropColl),
            "dropDatabase" => Some(Verb::DropDatabase),
            "rename" => Some(Verb::Rename),
            "createIndex" => Some(Verb::CreateIndex),
            "dropIndex" => Some(Verb::DropIndex),
            "dump" => Some(Verb::Dump),
            "mark" => Some(Verb::Mark),
            "tail" => Some(Verb::Tail),
            "begin" => Some(Verb::Begin),
            "commit" => Some(Verb::Commit),
            "abort" => Some(Verb::Abort),
            _ => None,
        }
    }

    /// The least number of operands.
    pub(crate) fn least(self) -> usize
        ensures { result ≡ least self }
    {
        match self {
            Verb::Dump | Verb::Mark | Verb::Begin | Verb::Commit | Verb::Abort => 0,
            Verb::Oplog
            | Verb::Record
            | Verb::At
            | Verb::Create
            | Verb::DropColl
            | Verb::DropDatabase
            | Verb::Tail => 1,
            _ => 2,
        }
    }

    /// The greatest number of operands.
    pub(crate) fn most(self) -> usize
        ensures { result ≡ most self }
    {
        match self {
            Verb::Oplog | Verb::Create => 2,
            _ => self.least(),
        }
    }

    /// Whether the second operand is a JSON text.
    pub(crate) fn has_text(self) -> bool
        ensures { result ≡ has_text self }
    {
        matches!(
            self,
            Verb::Create
                | Verb::Insert
                | Verb::Replace
                | Verb::Update
                | Verb::Delete
                | Verb::CreateIndex
        )
    }

    pub(crate) fn may_stand(self, context: Context) -> bool
        ensures { result ≡ may_stand self context }
    {
        match self {
            Verb::Oplog => matches!(context, Context::Start),
            Verb::Insert
            | Verb::Replace
            | Verb::Update
            | Verb::Delete
            | Verb::Dump
            | Verb::Copy
            | Verb::Mark
            | Verb::Tail => true,
            Verb::Commit | Verb::Abort => matches!(context, Context::Inside),
            _ => !matches!(context, Context::Inside),
        }
    }
}
