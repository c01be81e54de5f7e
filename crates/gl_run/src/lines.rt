//! Replies of one line.
ghost use Rattle.std.specs.Prelude.{◌≡◌, ◌++◌, IfOk, codes};
ghost use Rattle.gl_calculus.specs.Grid.Notation.{address_text};
ghost use Rattle.gl_protocol.specs.Replies.Tables.{line};

use gl_ast::{put, put_address};
use gl_plane::{Addr, NoMemory};
use std::alloc::Global;

/// A line of this text.
pub(crate) fn text_line(alloc: Global, text: &str) -> Result<Vec<u8>, NoMemory>
    ensures { IfOk result (λ reply. reply.items ≡ line text.now) }
{
    let mut out = String::new(alloc);
    put(&mut out, text)?;
    put(&mut out, "\n")?;
    Ok(out.into_bytes())
}

/// A line of words and an address behind them.
pub(crate) fn address_line(alloc: Global, words: &str, a: Addr) -> Result<Vec<u8>, NoMemory>
    ensures { IfOk result (λ reply. reply.items ≡ line (words.now ++ address_text a)) }
{
    let mut out = String::new(alloc);
    put(&mut out, words)?;
    put_address(alloc, &mut out, a)?;
    put(&mut out, "\n")?;
    Ok(out.into_bytes())
}

/// The line of a refusal by this word.
pub(crate) fn error_line(alloc: Global, word: &str) -> Result<Vec<u8>, NoMemory>
    ensures { IfOk result (λ reply. reply.items ≡ line (codes "error " ++ word.now)) }
{
    let mut out = String::new(alloc);
    put(&mut out, "error ")?;
    put(&mut out, word)?;
    put(&mut out, "\n")?;
    Ok(out.into_bytes())
}
