//! The words of a line, cut at its spaces.
ghost use Rattle.std.specs.Prelude.{◌≡◌, ◌∷◌, ◌&&◌, Some, None, option_copied};
ghost use Rattle.gl_protocol.specs.Framing.Pieces.{cut_at, pieces, is_number};
ghost use Rattle.gl_protocol.specs.Scripts.Commands as C;
ghost use Rattle.gl_script.specs.Parts.{edit_at, edit_behind, some_tree, some_words};
ghost use Rattle.gl_script.specs.Numbers.{is_site};

use crate::header::is_number;
use crate::numbers::site_of;

/// A command with its arguments as they stand.
#[derive(Clone, Copy)]
pub(crate) enum Words<'a> {
    List,
    Calc,
    Oracle,
    Quit,
    Set(&'a str, &'a str),
    Clear(&'a str),
    View(&'a str),
    Show(&'a str),
    Get(&'a str),
    Why(&'a str),
    Explain(&'a str),
    Import(&'a str, &'a str),
    Site(&'a str),
    /// Time, site, place and text.
    Edit(&'a str, &'a str, &'a str, Option<&'a str>),
    Export,
    Undo,
    Redo,
    Flow,
}

/// The words of a line, where it is a command with its arguments: it is cut at each space, but the
/// text of `set` is all behind the second, and that of `edit` all behind the fourth. No argument is
/// empty.
pub(crate) fn words_of(line: &str) -> Option<Words<'_>>
    ensures { some_tree result ≡ C.words_of line.now }
{
    match line.split_once(' ') {
        None => one_word(line),
        Some((word, rest)) => {
            if word == "set" {
                return set_words(rest);
            }
            if word == "edit" {
                return edit_words(rest);
            }
            more_words(word, rest)
        }
    }
}

fn one_word(word: &str) -> Option<Words<'_>>
    ensures { some_tree result ≡ C.one_word word.now }
{
    match word {
        "list" => Some(Words::List),
        "calc" => Some(Words::Calc),
        "oracle" => Some(Words::Oracle),
        "quit" => Some(Words::Quit),
        "export" => Some(Words::Export),
        "undo" => Some(Words::Undo),
        "redo" => Some(Words::Redo),
        "flow" => Some(Words::Flow),
        _ => None,
    }
}

// The words of a line of `set` and what follows.
fn set_words(rest: &str) -> Option<Words<'_>>
    ensures { some_tree result ≡ C.set_words (Some rest.now) }
{
    match rest.split_once(' ') {
        None => None,
        Some((place, text)) => {
            if place.is_empty() || text.is_empty() {
                return None;
            }
            Some(Words::Set(place, text))
        }
    }
}

// The words of a line of `edit` and what follows.
fn edit_words(rest: &str) -> Option<Words<'_>>
    ensures { some_tree result ≡ C.edit_words (Some rest.now) }
{
    match rest.split_once(' ') {
        None => None,
        Some((time, rest)) => timed_edit(time, rest),
    }
}

// The words of an edit, of its time and what follows.
fn timed_edit<'a>(time: &'a str, rest: &'a str) -> Option<Words<'a>>
    ensures { some_tree result ≡ edit_behind time.now (cut_at 32 rest.now) }
{
    match rest.split_once(' ') {
        None => None,
        Some((site, rest)) => stamped_edit(time, site, rest),
    }
}

// The words of an edit, of its time, its site and what follows: a place, and a text behind it if
// there is one.
fn stamped_edit<'a>(time: &'a str, site: &'a str, rest: &'a str) -> Option<Words<'a>>
    ensures { some_tree result ≡ edit_at time.now site.now (cut_at 32 rest.now) }
{
    match rest.split_once(' ') {
        None => edit_of(time, site, rest, None),
        Some((place, text)) => edit_of(time, site, place, Some(text)),
    }
}

fn edit_of<'a>(
    time: &'a str,
    site: &'a str,
    place: &'a str,
    text: Option<&'a str>,
) -> Option<Words<'a>>
    ensures { some_tree result ≡ edit_at time.now site.now (place.now, option_copied text.entry) }
{
    if !are_numbers(time, site) || place.is_empty() || !is_text(text) {
        return None;
    }
    Some(Words::Edit(time, site, place, text))
}

fn are_numbers(time: &str, site: &str) -> bool
    ensures { result ≡ is_number time.now && is_number site.now }
{
    is_number(time.as_bytes()) && is_number(site.as_bytes())
}

// A text isn't empty, if there is one.
fn is_text(text: Option<&str>) -> bool
    ensures { result ≡ C.is_text (option_copied text.entry) }
{
    match text {
        None => true,
        Some(text) => !text.is_empty(),
    }
}

// The words of a line of another word and what follows.
fn more_words<'a>(word: &str, rest: &'a str) -> Option<Words<'a>>
    ensures { some_tree result ≡ C.words_of_pieces (word.now ∷ pieces 32 rest.now) }
{
    match rest.split_once(' ') {
        None => {
            if rest.is_empty() {
                return None;
            }
            two_words(word, rest)
        }
        Some((place, count)) => import_words(word, place, count),
    }
}

fn two_words<'a>(word: &str, place: &'a str) -> Option<Words<'a>>
    ensures { some_tree result ≡ C.two_words word.now place.now }
{
    match word {
        "clear" => Some(Words::Clear(place)),
        "view" => Some(Words::View(place)),
        "show" => Some(Words::Show(place)),
        "get" => Some(Words::Get(place)),
        "why" => Some(Words::Why(place)),
        "explain" => Some(Words::Explain(place)),
        "site" => site_words(place),
        _ => None,
    }
}

fn site_words(site: &str) -> Option<Words<'_>>
    ensures { some_tree result ≡ some_words (is_site site.now) (C.SiteWords site.now) }
{
    match site_of(site) {
        None => None,
        Some(_) => Some(Words::Site(site)),
    }
}

// The words of a word, a place and what follows: a count where it has no space.
fn import_words<'a>(word: &str, place: &'a str, count: &'a str) -> Option<Words<'a>>
    ensures { some_tree result ≡ C.words_of_pieces (word.now ∷ place.now ∷ pieces 32 count.now) }
{
    if word == "import" && !place.is_empty() && is_number(count.as_bytes()) {
        Some(Words::Import(place, count))
    } else {
        None
    }
}
