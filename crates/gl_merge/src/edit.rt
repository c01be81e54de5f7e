//! Edits.
ghost use Rattle.std.specs.Prelude.{◌≡◌};
ghost use Rattle.std.specs.{Coded.codes, Option.option_copied};
ghost use Rattle.gl_ast.specs.contracts.Formula as formula;
ghost use Rattle.gl_value.specs.contracts.Scalar as scalar;
ghost use Rattle.gl_merge.specs.Edit.{EditValue, IsProperOption, edit_tree, made};

use crate::Stamp;
use gl_cells::Content;
use gl_plane::Addr;
use std::marker::Model;

/// What an address gets, with its stamp: a proper content, or none where it loses its content.
#[derive(Drop)]
pub struct Edit {
    stamp: Stamp,
    place: Addr,
    content: Option<Content>,
}

impl Model for Edit {
    ghost Value = { EditValue };

    ghost coded = { Prim.hlevel (codes, scalar.the_row.coded, formula.the_row.coded) };

    ghost view = { λ e. record { stamp = e.stamp; place = e.place; content = e.content } };

    ghost invariant = { λ e. IsProperOption e.content };
}

impl Edit {
    /// An edit of an address.
    pub fn new(stamp: Stamp, place: Addr, content: Option<Content>) -> Edit
        requires { IsProperOption content }
        ensures { edit_tree result ≡ made stamp place content }
    {
        Edit {
            stamp,
            place,
            content,
        }
    }

    /// Its stamp.
    pub fn stamp(&self) -> Stamp
        ensures { result ≡ self.now.stamp }
    {
        self.stamp
    }

    /// The address that it is of.
    pub fn place(&self) -> Addr
        ensures { result ≡ self.now.place }
    {
        self.place
    }

    /// The content that the address gets. It is proper.
    pub fn content(&self) -> Option<&Content>
        ensures value { option_copied result ≡ self.now.content }
        ensures proper { IsProperOption self.now.content }
    {
        self.content.as_ref()
    }
}
