//! The words of refusals.
ghost use Rattle.std.specs.Prelude.{◌≡◌, IfOk, option_map};
ghost use Rattle.gl_script.specs.Command.{parse_word, word_of};
ghost use Rattle.gl_run.specs.Replies.{IsRefusal};

use crate::lines::error_line;
use gl_lex::LexFault;
use gl_parse::ParseFault;
use gl_plane::NoMemory;
use gl_script::CommandFault;
use std::alloc::Global;

/// The reply to a line that is refused.
pub(crate) fn refusal(alloc: Global, fault: &CommandFault) -> Result<Vec<u8>, NoMemory>
    ensures { IfOk result (λ reply. IsRefusal (word_of fault.now) reply.items) }
{
    match fault_word(fault) {
        Some(word) => error_line(alloc, word),
        None => Err(NoMemory),
    }
}

fn fault_word(fault: &CommandFault) -> Option<&'static str>
    ensures { option_map (λ w. w.now) result ≡ word_of fault.now }
{
    match fault {
        CommandFault::Utf8 => Some("utf8"),
        CommandFault::Word => Some("command"),
        CommandFault::Payload => Some("payload"),
        CommandFault::Address => Some("address"),
        CommandFault::Range => Some("range"),
        CommandFault::Stamp => Some("stamp"),
        CommandFault::Parse(fault) => parse_word(fault),
        CommandFault::Text => Some("text"),
        CommandFault::Field => Some("field"),
        CommandFault::NoMemory => None,
    }
}

fn parse_word(fault: &ParseFault) -> Option<&'static str>
    ensures { option_map (λ w. w.now) result ≡ parse_word fault.now }
{
    match fault {
        ParseFault::Long => Some("long"),
        ParseFault::Lex(fault) => lex_word(fault),
        ParseFault::Deep => Some("deep"),
        ParseFault::Syntax => Some("syntax"),
        ParseFault::Range => Some("range"),
        ParseFault::Name => Some("name"),
        ParseFault::Arity => Some("arity"),
        ParseFault::NoMemory => None,
    }
}

fn lex_word(fault: &LexFault) -> Option<&'static str>
    ensures { option_map (λ w. w.now) result
        ≡ parse_word (ParseFault.Lex fault.now) }
{
    match fault {
        LexFault::Token { .. } => Some("token"),
        LexFault::Number { .. } => Some("number"),
        LexFault::Text { .. } => Some("text"),
        LexFault::NoMemory => None,
    }
}
