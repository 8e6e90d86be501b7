//! Names of collections that are to be made.
ghost use Rattle.std.specs.Prelude.{◌≡◌, ◌&&◌, ◌||◌, not, codes};
ghost use Rattle.std.specs.List.{list_all};
ghost use Rattle.history_model.specs.Documents.{is_word, is_dot, begins, ends_with_dot, is_reserved, is_database_name, is_collection_name, is_bad_name};

use bson_value::NsName;

// An ASCII letter, a digit, `_` or `-`.
fn is_word(byte: u8) -> bool
    ensures { result ≡ is_word byte }
{
    matches!(byte, b'0'..=b'9' | b'A'..=b'Z' | b'a'..=b'z' | b'_' | b'-')
}

fn are_words(text: &str) -> bool
    ensures { result ≡ list_all is_word text.now }
{
    let mut left = text.as_bytes();
    'bytes: while let Some((byte, rest)) = left.split_first() {
        if !is_word(*byte) {
            return false;
        }
        left = rest;
    }
    true
}

fn is_word_or_dot(byte: u8) -> bool
    ensures { result ≡ (is_word byte || is_dot byte) }
{
    is_word(byte) || byte == b'.'
}

fn are_words_or_dots(text: &str) -> bool
    ensures { result ≡ list_all (λ c. is_word c || is_dot c) text.now }
{
    let mut left = text.as_bytes();
    'bytes: while let Some((byte, rest)) = left.split_first() {
        if !is_word_or_dot(*byte) {
            return false;
        }
        left = rest;
    }
    true
}

fn begins(front: &[u8], text: &[u8]) -> bool
    ensures { result ≡ begins front.now text.now }
{
    let mut front = front;
    let mut text = text;
    'bytes: while let Some((wanted, more)) = front.split_first() {
        match text.split_first() {
            None => return false,
            Some((byte, rest)) => {
                if wanted != byte {
                    return false;
                }
                front = more;
                text = rest;
            }
        }
    }
    true
}

fn ends_with_dot(text: &[u8]) -> bool
    ensures { result ≡ ends_with_dot text.now }
{
    let mut left = text;
    'bytes: while let Some((byte, rest)) = left.split_first() {
        if rest.is_empty() {
            return *byte == b'.';
        }
        left = rest;
    }
    false
}

fn is_reserved(name: &str) -> bool
    ensures { result ≡ is_reserved name.now }
{
    matches!(name, "admin" | "config" | "local")
}

fn is_database_name(name: &str) -> bool
    ensures { result ≡ is_database_name name.now }
{
    let count = name.len();
    1 <= count && count <= 63 && are_words(name) && !is_reserved(name)
}

fn has_good_ends(name: &str) -> bool
    ensures { result ≡ (not (begins (codes ".") name.now) && (not (ends_with_dot name.now) && not (begins (codes "system.") name.now))) }
{
    let bytes = name.as_bytes();
    !begins(b".", bytes) && !ends_with_dot(bytes) && !begins(b"system.", bytes)
}

fn is_collection_name(name: &str) -> bool
    ensures { result ≡ is_collection_name name.now }
{
    let count = name.len();
    1 <= count && count <= 120 && are_words_or_dots(name) && has_good_ends(name)
}

/// Whether no collection may be made under this name: the database isn't 1 to 63 ASCII letters, digits,
/// `_` and `-`, or is `admin`, `config` or `local`; or the collection isn't 1 to 120 of these characters
/// and dots, begins or ends with a dot, or begins with `system.`. It takes no memory.
#[tactic(auto, unfolding(history_model::specs::Documents::is_bad_name))]
pub fn is_bad_name(ns: &NsName) -> bool
    ensures { result ≡ is_bad_name ns.now }
{
    !(is_database_name(ns.db.as_str()) && is_collection_name(ns.coll.as_str()))
}
