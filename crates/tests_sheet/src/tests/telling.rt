//! What a line of a script asks, or why it is refused, in a few words.
use gl_cells::Content;
use gl_script::{CommandFault, Request, command};
use gl_value::Scalar;
use std::alloc::Global;
use std::process::Abort;
use tests_common::formula_word;

fn content_kind(content: &Content) -> &'static str {
    match content {
        Content::Form(_) => "set formula",
        Content::Const(Scalar::Int(_)) => "set number",
        Content::Const(Scalar::Bool(_)) => "set truth",
        Content::Const(Scalar::Text(_)) => "set text",
        Content::Const(_) => "?",
    }
}

fn asked(request: &Request) -> &'static str {
    match request {
        Request::Nothing => "",
        Request::Set(_, content) => content_kind(content),
        Request::Clear(_) => "clear",
        Request::Show(_) => "show",
        Request::View(_) => "view",
        Request::Get(_) => "get",
        Request::List => "list",
        Request::Calc => "calc",
        Request::Oracle => "oracle",
        Request::Why(_) => "why",
        Request::Explain(_) => "explain",
        Request::Import { at, .. } => {
            if at.is_some() {
                "import"
            } else {
                "import nowhere"
            }
        }
        Request::Version => "version",
        Request::Quit => "quit",
        Request::Site(_) => "site",
        Request::Edit { content, .. } => { if content.is_some() { "edit" } else { "removal" } }
        Request::Export => "export",
        Request::Undo => "undo",
        Request::Redo => "redo",
        Request::Flow => "flow",
    }
}

fn refused(fault: &CommandFault) -> &'static str {
    match fault {
        CommandFault::Utf8 => "error utf8",
        CommandFault::Word => "error command",
        CommandFault::Payload => "error payload",
        CommandFault::Address => "error address",
        CommandFault::Range => "error range",
        CommandFault::Stamp => "error stamp",
        CommandFault::Parse(fault) => formula_word(fault),
        CommandFault::Text => "error text",
        CommandFault::Field => "error field",
        CommandFault::NoMemory => "no memory",
    }
}

/// What the line asks, or why it is refused.
pub fn told(alloc: Global, line: &[u8]) -> &'static str {
    match command(alloc, line) {
        Ok(request) => asked(&request),
        Err(fault) => refused(&fault),
    }
}

/// Of each line the word beside it is told.
pub fn assert_told(rt: &impl Abort, alloc: Global, rows: &[(&str, &str)]) {
    for (line, want) in rows {
        assert!(rt; told(alloc, line.as_bytes()) == *want, "{line}");
    }
}

/// Of each of the lines the same is told.
pub fn assert_all_told(rt: &impl Abort, alloc: Global, lines: &[&str], want: &str) {
    for line in lines {
        assert!(rt; told(alloc, line.as_bytes()) == want, "{line}");
    }
}
