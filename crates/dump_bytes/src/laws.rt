//! The laws of what a dump writes.
ghost use Rattle.dump_bytes.specs.Laws.{MetadataFits, WrittenAreBytes};

use dump_steps::steps_follow;
use formed_trees::trees_are_formed;
use history_model::done_is_healed_before;
use printed_texts::{prints_are_texts, strings_are_short};
use recorded_entries::recorded_is_good;
use spelled_bytes::documents_are_bytes;

/// The metadata of each collection at the start of a dump is a text, with which its document has at most 16,793,600
/// bytes: options and definitions print to at most 8,192 bytes each, and there are at most 63 definitions.
pub fn metadata_fits()
    ensures { MetadataFits }
{
    steps_follow();
    trees_are_formed();
    prints_are_texts();
    strings_are_short();
}

/// All numbers that a dump writes are bytes.
pub fn written_are_bytes()
    ensures { WrittenAreBytes }
{
    metadata_fits();
    steps_follow();
    done_is_healed_before();
    recorded_is_good();
    documents_are_bytes();
}
