//! What `--help` and `--version` show.

/// What `--help` shows.
pub const HELP: &str = "\
usage: suzhimanu source [OPTION..] < SCHEDULE
       suzhimanu dump --archive --oplog < SCHEDULE > ARCHIVE
       suzhimanu restore --archive [OPTION..] < ARCHIVE
       suzhimanu drill N
       suzhimanu --help
       suzhimanu --version

source  reads a schedule from standard input, runs its commands, tells each line that is refused, and lists what they
        made

  --oplogLimit=S[:I]
                  the run stops before the first write at this second and ordinal, 0 where none is given, or later
  --form=hex, --form=json
                  as those of restore

dump  reads a schedule from standard input, runs its lines beside a dump of its collections, tells each line that is refused,
        writes the archive of the dump, and tells its moments and how much it wrote

  --archive       the output is an archive (needed)
  --oplog         it has the entries that were recorded while it was made (needed)

restore  reads an archive from standard input and lists what it restores

  --archive       the input is an archive (needed)
  --oplogReplay   the entries of the archive's oplog are replayed on its collections
  --oplogLimit=S[:I]
                  entries at this second and ordinal, 0 where none is given, and later ones aren't replayed;
                  only beside --oplogReplay
  --nsInclude=P   only collections db.collection that a pattern takes are restored; may stand more than once
  --nsExclude=P   collections that a pattern takes aren't restored; may stand more than once
  --nsFrom=P --nsTo=P
                  a collection that the first pattern takes is restored under the name that the second makes with
                  what the stars stand for; may stand more than once, in pairs, and not beside --oplogReplay
  --form=hex      documents are listed by their bytes, in hexadecimal
  --form=json     documents are listed as canonical Extended JSON, which is the form where none is given

drill  draws N lines of a schedule, from 1 to 100,000, dumps it, restores the archive with its entries replayed, compares what
        that lists with the source, and tells how much it was

In a pattern * stands for any characters, and \\ takes the next character as it stands.
";

/// What `--version` shows.
pub const VERSION: &str = "suzhimanu 0.1.0\n";
