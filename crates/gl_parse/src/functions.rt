//! The words that are called.

ghost use Rattle.std.specs.Prelude.{◌≡◌, bytes_eq, option_map};
ghost use Rattle.gl_language.specs.Texts.Text.{fun_text};
ghost use Rattle.gl_language.specs.Reading.Grammar as G;
ghost use Rattle.gl_ast.specs.View.{fun_tree};

use gl_ast::Fun;

const FUNCTIONS: [Fun; 34] = [
    Fun::Sum,
    Fun::Count,
    Fun::Min,
    Fun::Max,
    Fun::And,
    Fun::Or,
    Fun::Not,
    Fun::If,
    Fun::IfError,
    Fun::IsError,
    Fun::IsBlank,
    Fun::Abs,
    Fun::Mod,
    Fun::Len,
    Fun::Left,
    Fun::Right,
    Fun::Rows,
    Fun::Columns,
    Fun::Index,
    Fun::Sequence,
    Fun::Transpose,
    Fun::Take,
    Fun::Drop,
    Fun::HStack,
    Fun::VStack,
    Fun::Filter,
    Fun::Unique,
    Fun::Lookup,
    Fun::Na,
    Fun::Sheet,
    Fun::Update,
    Fun::View,
    Fun::G,
    Fun::This,
];

/// The function that a word calls. `LET` is none.
#[tactic(auto, using(crate::proofs::Words::word_rules))]
pub fn function_of(word: &[u8]) -> Option<Fun>
    ensures { option_map fun_tree result ≡ G.function_of word.now }
{
    for fun in FUNCTIONS {
        if is_word(fun, word) {
            return Some(fun);
        }
    }
    None
}

fn is_word(fun: Fun, word: &[u8]) -> bool
    ensures { result ≡ bytes_eq (fun_text (fun_tree fun)) word.now }
{
    fun.word().as_bytes() == word
}

/// The word is `LET`, which binds a name and is not a function of values.
pub fn is_let(word: &[u8]) -> bool
    ensures { result ≡ G.is_let word.now }
{
    word == b"LET".as_slice()
}
