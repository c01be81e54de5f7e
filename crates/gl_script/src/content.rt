//! The content of a text.
ghost use Rattle.std.specs.Prelude.{◌≡◌, ◌≢◌, ◌<◌, ◌∷◌, IsTrue, length, slice_index, option_copied};
ghost use Rattle.gl_protocol.specs.Scripts.Commands.{is_text};
ghost use Rattle.gl_value.specs.View.{scalar_tree};
ghost use Rattle.gl_script.specs.Parts.{IsContent, IsText, is_int, formula_fault, literal_fault};

use crate::requests::CommandFault;
use gl_cells::{Content, plain_scalar};
use gl_lex::{LexFault, literal};
use gl_parse::{ParseFault, parse};
use gl_value::{MAX_TEXT, Scalar};
use std::alloc::Global;
use std::rc::Rc;

/// The content of a text that isn't empty: a formula behind `=`, a literal where it begins with `"`, else
/// a number, a truth value, or the text itself, which has at most `MAX_TEXT` bytes.
pub(crate) fn read_content(alloc: Global, text: &str) -> Result<Content, CommandFault>
    ensures { 0 < length text.now → IsContent text.now result }
{
    match text.strip_prefix('=') {
        Some(formula) => read_formula(alloc, formula),
        None => {
            if text.starts_with('"') {
                read_literal(alloc, text)
            } else {
                read_plain(alloc, text)
            }
        }
    }
}

/// The content of a text that isn't empty, or `None` where there is no text.
pub(crate) fn read_text(alloc: Global, text: Option<&str>) -> Result<Option<Content>, CommandFault>
    ensures { IsTrue (is_text (option_copied text.entry))
        → IsText (option_copied text.entry) result }
{
    match text {
        None => Ok(None),
        Some(text) => match read_content(alloc, text) {
            Ok(content) => Ok(Some(content)),
            Err(fault) => Err(fault),
        },
    }
}

// The content of `=` and this text.
fn read_formula(alloc: Global, text: &str) -> Result<Content, CommandFault>
    ensures { IsContent (61 ∷ text.now) result }
{
    match parse(alloc, text) {
        Ok(formula) => match Rc::new(alloc, formula) {
            Ok(formula) => Ok(Content::Form(formula)),
            Err(_) => Err(CommandFault::NoMemory),
        },
        Err(fault) => Err(formula_fault(fault)),
    }
}

fn formula_fault(fault: ParseFault) -> CommandFault
    ensures { result ≡ formula_fault fault }
{
    match fault {
        ParseFault::NoMemory => CommandFault::NoMemory,
        fault => CommandFault::Parse(fault),
    }
}

// The content of a text that begins with `"`.
fn read_literal(alloc: Global, text: &str) -> Result<Content, CommandFault>
    requires { slice_index text.now 0 ≡ 34 }
    ensures { IsContent text.now result }
{
    match literal(alloc, text) {
        Ok(decoded) => Ok(Content::Const(Scalar::Text(decoded))),
        Err(fault) => Err(literal_fault(fault)),
    }
}

fn literal_fault(fault: LexFault) -> CommandFault
    ensures { result ≡ literal_fault fault }
{
    match fault {
        LexFault::NoMemory => CommandFault::NoMemory,
        LexFault::Token { .. } | LexFault::Number { .. } | LexFault::Text { .. } => {
            CommandFault::Text
        }
    }
}

fn is_int(x: &Scalar) -> bool
    ensures { result ≡ is_int (scalar_tree x.now) }
{
    match x {
        Scalar::Int(_) => true,
        _ => false,
    }
}

// The content of a text that begins neither with `=` nor with `"`. A number may have any length.
fn read_plain(alloc: Global, text: &str) -> Result<Content, CommandFault>
    requires no_formula { slice_index text.now 0 ≢ 61 }
    requires no_literal { slice_index text.now 0 ≢ 34 }
    ensures { 0 < length text.now → IsContent text.now result }
{
    let x = plain_scalar(alloc, text)?;
    if text.len() <= MAX_TEXT {
        return Ok(Content::Const(x));
    }
    if is_int(&x) {
        Ok(Content::Const(x))
    } else {
        Err(CommandFault::Field)
    }
}
