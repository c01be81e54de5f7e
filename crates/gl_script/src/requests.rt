//! Lines as requests.
ghost use Rattle.std.specs.Prelude.{◌≡◌, IsFalse, option_copied};
ghost use Rattle.gl_language.specs.Texts.Text.{Bytes};
ghost use Rattle.gl_protocol.specs.Scripts.Commands.{ReadsLine, is_comment};
ghost use Rattle.gl_protocol.specs.Scripts.Commands as C;
ghost use Rattle.gl_script.specs.{Command.Answers, Command.Asks, Parts.HasWords, Parts.words_tree};
ghost use Rattle.gl_script.specs.Asked.{asked_request, asked_words};
ghost use Rattle.gl_script.specs.declared.requests.CommandFault.TheVariants.{NoMemory};

use crate::content::{read_content, read_text};
use crate::header::count_of;
use crate::numbers::{site_of, stamp_of};
use crate::place::{read_address, read_range};
use crate::words::{Words, words_of};
use gl_cells::Content;
use gl_parse::ParseFault;
use gl_plane::{Addr, NoMemory, Range};
use std::alloc::Global;
use std::str;

/// What a line asks.
#[derive(Drop)]
pub enum Request {
    /// Nothing: an empty line, or one that begins with `;`.
    Nothing,
    Set(Addr, Content),
    Clear(Range),
    Show(Addr),
    /// A range of at most `MAX_VIEW` cells.
    View(Range),
    Get(Addr),
    List,
    Calc,
    Oracle,
    Why(Addr),
    Explain(Addr),
    /// The header of an import, which `n` bytes follow; `at` is `None` where its place is no address.
    Import {
        at: Option<Addr>,
        n: u32,
    },
    /// The line `gridlet 2`, which asks something only where it is the first of a script.
    Version,
    Quit,
    /// To be the replica of this site.
    Site(u16),
    /// To take an edit: what the address gets, or that it loses its content, with the stamp of time and
    /// site. The time is from 1 to 1,000,000,000,000.
    Edit {
        time: u64,
        site: u16,
        at: Addr,
        content: Option<Content>,
    },
    Export,
    Undo,
    Redo,
    Flow,
}

/// Why a line is refused: the first of these that holds, in this order.
#[derive(Drop)]
pub enum CommandFault {
    /// The line isn't UTF-8.
    Utf8,
    /// No such command, an argument that is missing, empty or one too many, a number that is neither `0`
    /// nor digits without a leading zero, or the site of `site` above 65,535.
    Word,
    /// The count of an import is above `MAX_PAYLOAD`.
    Payload,
    /// The address, or a corner of the range, is no address of the grid.
    Address,
    /// The corners of the range are not in order, or a view has more than `MAX_VIEW` cells.
    Range,
    /// The time of an edit is 0 or above 1,000,000,000,000, or its site is above 65,535.
    Stamp,
    /// The text of `set` or `edit` begins with `=`, and what follows is no formula. It is never a want of
    /// memory.
    Parse(ParseFault),
    /// The text of `set` or `edit` begins with `"` and is no literal.
    Text,
    /// The text of `set` or `edit` is neither of these, nor a number, and is longer than a text may be.
    Field,
    NoMemory,
}

/// The most cells of a view.
pub const MAX_VIEW: u32 = gl_plane::MAX_CELLS;

impl From<NoMemory> for CommandFault {
    ghost from_gives = { λ _ e. e ≡ NoMemory };

    fn from(_: NoMemory) -> CommandFault {
        CommandFault::NoMemory
    }
}

/// What a line asks, or the first cause by which it is refused. A want of memory is always `NoMemory`.
pub fn command(alloc: Global, line: &[u8]) -> Result<Request, CommandFault>
    ensures { Answers line.now result }
{
    if is_comment(line) {
        return Ok(Request::Nothing);
    }
    match str::from_utf8(line) {
        Ok(text) => command_of_text(alloc, text),
        Err(_) => Err(CommandFault::Utf8),
    }
}

fn is_comment(line: &[u8]) -> bool
    ensures { result ≡ is_comment line.now }
{
    match line.split_first() {
        None => true,
        Some((first, _)) => *first == b';',
    }
}

fn command_of_text(alloc: Global, text: &str) -> Result<Request, CommandFault>
    ensures { IsFalse (is_comment text.now) → Answers text.now result }
{
    if text == "gridlet 2" {
        return Ok(Request::Version);
    }
    match words_of(text) {
        Some(words) => read_words(alloc, words),
        None => Err(CommandFault::Word),
    }
}

// What the words of a line ask.
fn read_words(alloc: Global, words: Words<'_>) -> Result<Request, CommandFault>
    ensures { (l : Bytes) → HasWords l (words_tree words.entry) → Answers l result }
{
    match words {
        Words::List => Ok(Request::List),
        Words::Calc => Ok(Request::Calc),
        Words::Oracle => Ok(Request::Oracle),
        Words::Quit => Ok(Request::Quit),
        Words::Set(place, text) => set(alloc, place, text),
        Words::Clear(place) => clear(place),
        Words::View(place) => view(place),
        Words::Show(place) => ask(Asked::Show, place),
        Words::Get(place) => ask(Asked::Get, place),
        Words::Why(place) => ask(Asked::Why, place),
        Words::Explain(place) => ask(Asked::Explain, place),
        Words::Import(place, count) => import(place, count),
        Words::Site(digits) => site(digits),
        Words::Edit(time, site, place, text) => edit(alloc, time, site, place, text),
        Words::Export => Ok(Request::Export),
        Words::Undo => Ok(Request::Undo),
        Words::Redo => Ok(Request::Redo),
        Words::Flow => Ok(Request::Flow),
    }
}

fn set(alloc: Global, place: &str, text: &str) -> Result<Request, CommandFault>
    ensures { (l : Bytes) → HasWords l (C.SetWords place.now text.now) → Answers l result }
{
    match read_address(place) {
        Some(a) => match read_content(alloc, text) {
            Ok(content) => Ok(Request::Set(a, content)),
            Err(fault) => Err(fault),
        },
        None => Err(CommandFault::Address),
    }
}

fn clear(place: &str) -> Result<Request, CommandFault>
    ensures { (l : Bytes) → HasWords l (C.ClearWords place.now) → Answers l result }
{
    match read_range(place) {
        Ok(range) => Ok(Request::Clear(range)),
        Err(fault) => Err(fault),
    }
}

fn view(place: &str) -> Result<Request, CommandFault>
    ensures { (l : Bytes) → HasWords l (C.ViewWords place.now) → Answers l result }
{
    match read_range(place) {
        Ok(range) => {
            if range.cells() <= MAX_VIEW {
                Ok(Request::View(range))
            } else {
                Err(CommandFault::Range)
            }
        }
        Err(fault) => Err(fault),
    }
}

// What is asked of one address.
#[derive(Clone, Copy)]
enum Asked {
    Show,
    Get,
    Why,
    Explain,
}

// The request of an address.
fn asked_of(asked: Asked, a: Addr) -> Request
    ensures { (l : Bytes) → ReadsLine l (C.Is (asked_request asked a)) → Asks l result }
{
    match asked {
        Asked::Show => Request::Show(a),
        Asked::Get => Request::Get(a),
        Asked::Why => Request::Why(a),
        Asked::Explain => Request::Explain(a),
    }
}

fn ask(asked: Asked, place: &str) -> Result<Request, CommandFault>
    ensures { (l : Bytes) → HasWords l (asked_words asked place.now) → Answers l result }
{
    match read_address(place) {
        Some(a) => Ok(asked_of(asked, a)),
        None => Err(CommandFault::Address),
    }
}

fn import(place: &str, count: &str) -> Result<Request, CommandFault>
    ensures { (l : Bytes) → HasWords l (C.ImportWords place.now count.now) → Answers l result }
{
    match count_of(count) {
        Some(n) => Ok(Request::Import {
            at: read_address(place),
            n,
        }),
        None => Err(CommandFault::Payload),
    }
}

fn site(digits: &str) -> Result<Request, CommandFault>
    ensures { (l : Bytes) → HasWords l (C.SiteWords digits.now) → Answers l result }
{
    match site_of(digits) {
        Some(n) => Ok(Request::Site(n)),
        None => Err(CommandFault::Word),
    }
}

fn edit(
    alloc: Global,
    time: &str,
    site: &str,
    place: &str,
    text: Option<&str>,
) -> Result<Request, CommandFault>
    ensures { (l : Bytes)
        → HasWords l (C.EditWords time.now site.now place.now (option_copied text.entry))
        → Answers l result }
{
    match read_address(place) {
        Some(at) => match stamp_of(time, site) {
            Some((time, site)) => match read_text(alloc, text) {
                Ok(content) => Ok(Request::Edit {
                    time,
                    site,
                    at,
                    content,
                }),
                Err(fault) => Err(fault),
            },
            None => Err(CommandFault::Stamp),
        },
        None => Err(CommandFault::Address),
    }
}
