//! The words and signs of formulas, as they are written.

ghost use Rattle.std.specs.Prelude.{◌≡◌};
ghost use Rattle.gl_language.specs.Texts.Text as text;
ghost use Rattle.gl_ast.specs.View.{fun_tree, op_tree};

use crate::{Fun, Op};

impl Fun {
    /// The word by which the function is called.
    pub fn word(self) -> &'static str
        ensures { result.now ≡ text.fun_text (fun_tree self) }
    {
        match self {
            Fun::Sum => "SUM",
            Fun::Count => "COUNT",
            Fun::Min => "MIN",
            Fun::Max => "MAX",
            Fun::And => "AND",
            Fun::Or => "OR",
            Fun::Not => "NOT",
            Fun::If => "IF",
            Fun::IfError => "IFERROR",
            Fun::IsError => "ISERROR",
            Fun::IsBlank => "ISBLANK",
            Fun::Abs => "ABS",
            Fun::Mod => "MOD",
            Fun::Len => "LEN",
            Fun::Left => "LEFT",
            Fun::Right => "RIGHT",
            Fun::Rows => "ROWS",
            Fun::Columns => "COLUMNS",
            Fun::Index => "INDEX",
            Fun::Sequence => "SEQUENCE",
            Fun::Transpose => "TRANSPOSE",
            Fun::Take => "TAKE",
            Fun::Drop => "DROP",
            Fun::HStack => "HSTACK",
            Fun::VStack => "VSTACK",
            Fun::Filter => "FILTER",
            Fun::Unique => "UNIQUE",
            Fun::Lookup => "LOOKUP",
            Fun::Na => "NA",
            Fun::Sheet => "SHEET",
            Fun::Update => "UPDATE",
            Fun::View => "VIEW",
            Fun::G => "G",
            Fun::This => "THIS",
        }
    }
}

impl Op {
    /// The sign of the operator.
    pub fn sign(self) -> &'static str
        ensures { result.now ≡ text.op_text (op_tree self) }
    {
        match self {
            Op::Eq => "=",
            Op::Ne => "<>",
            Op::Lt => "<",
            Op::Le => "<=",
            Op::Gt => ">",
            Op::Ge => ">=",
            Op::Join => "&",
            Op::Add => "+",
            Op::Sub => "-",
            Op::Mul => "*",
            Op::Div => "/",
        }
    }
}
