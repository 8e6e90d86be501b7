//! The lines of a text.
ghost use Rattle.std.specs.Prelude.{◌≡◌, ◌∷◌, ◌++◌, ◌==◌, ◌<◌, ◌≤◌, [], true, length, position, take, drop, MatchOption};
ghost use Rattle.schedule_text.specs.Words.{lacks};
ghost use Rattle.schedule_text.specs.Lines.{whole_lines, EndsAt, without_return, content};
ghost use Rattle.schedule_text.specs.Reading.{is_passed};

use memchr::memchr;

fn line_feed(bytes: &[u8]) -> Option<usize>
    ensures { result ≡ position (λ b. b == 10) bytes.now }
{
    memchr(b'\n', bytes)
}

/// The place behind the first line feed, where there is one.
pub fn line_end(bytes: &[u8]) -> Option<usize>
    ensures { MatchOption result (lacks 10 bytes.now ≡ true) (λ end. EndsAt end bytes.now) }
{
    match line_feed(bytes) {
        Some(at) => Some(at + 1),
        None => None,
    }
}

// The place behind the first line.
fn first_end(bytes: &[u8]) -> usize
    requires { 0 < length bytes.now }
    ensures lines { whole_lines bytes.now ≡ take result bytes.now ∷ whole_lines (drop result bytes.now) }
    ensures within { result ≤ length bytes.now }
    ensures some { 0 < result }
{
    match line_end(bytes) {
        Some(end) => end,
        None => bytes.len(),
    }
}

/// The first line, with the line feed that ends it, and what stands behind it.
pub(crate) fn first_line(bytes: &[u8]) -> (&[u8], &[u8])
    requires { 0 < length bytes.now }
    ensures lines { whole_lines bytes.now ≡ result.0.now ∷ whole_lines result.1.now }
    ensures joined { bytes.now ≡ result.0.now ++ result.1.now }
    ensures shorter { length result.1.now < length bytes.now }
{
    bytes.split_at(first_end(bytes))
}

fn without_return(line: &[u8]) -> &[u8]
    ensures { result.now ≡ without_return line.now }
{
    match line.split_last() {
        Some((b'\r', before)) => before,
        _ => line,
    }
}

/// A line without its line feed, and without a carriage return before that.
pub(crate) fn content(line: &[u8]) -> &[u8]
    ensures { result.now ≡ content line.now }
{
    match line.split_last() {
        Some((b'\n', before)) => without_return(before),
        _ => line,
    }
}

/// Whether a line is empty or a comment.
pub(crate) fn is_passed(line: &[u8]) -> bool
    ensures { result ≡ is_passed line.now }
{
    match line {
        [] => true,
        [first, ..] => *first == b'#',
    }
}
