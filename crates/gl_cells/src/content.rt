//! Contents of an address.
ghost use Rattle.std.specs.Prelude.{◌≡◌};
ghost use Rattle.gl_cells.specs.Content.{content_tree, form_weight, is_formula};

use gl_ast::Formula;
use gl_plane::{NoMemory, Share};
use gl_value::Scalar;
use std::rc::Rc;

/// A constant or a formula.
#[derive(PartialEq, Eq)]
pub enum Content {
    Const(Scalar),
    Form(Rc<Formula>),
}

// One call wherever it is dropped, in place of one for each part.
impl Drop for Content {
    fn drop(self) {
        match self {
            Content::Const(_) => {}
            Content::Form(_) => {}
        }
    }
}

impl Content {
    /// Whether it is a formula, not a constant.
    pub fn is_formula(&self) -> bool
        ensures { result ≡ is_formula (content_tree self.now) }
    {
        matches!(self, Content::Form(_))
    }

    /// 1 for a formula, 0 for a constant.
    pub(crate) fn weight(&self) -> usize
        ensures { result ≡ form_weight (content_tree self.now) }
    {
        usize::from(self.is_formula())
    }
}

impl Share for Content {
    ghost use Rattle.std.specs.Prelude.{◌≡◌};
    ghost use Rattle.gl_cells.specs.{Content.content_tree, Equal.content_alike};

    ghost shares = { λ x y. content_tree y ≡ content_tree x };

    ghost alike = { content_alike };

    fn share(&self) -> Result<Content, NoMemory> {
        match self {
            Content::Const(x) => Ok(Content::Const(x.share()?)),
            Content::Form(f) => Ok(Content::Form(f.clone()?)),
        }
    }
}
