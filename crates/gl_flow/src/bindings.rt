//! The shapes of the variables in scope, the innermost first.
ghost use Rattle.std.specs.Prelude.{◌≡◌, ◌++◌, ◌∷◌, IfOk, OnOk, bytes_eq};
ghost use Rattle.std.specs.Rc.{rc_str_bytes};
ghost use Rattle.gl_flow.specs.Shapes.{bindings_of};
ghost use Rattle.gl_calculus.specs.Forecast as Fo;

use crate::extents::Extents;
use gl_plane::NoMemory;
use std::alloc::Global;
use std::rc::RcStr;

/// Two names are the same.
fn same_name(x: &RcStr, y: &RcStr) -> bool
    ensures { result ≡ bytes_eq (rc_str_bytes x.now) (rc_str_bytes y.now) }
{
    x == y
}

/// The shape of a variable.
pub fn bound(bindings: &[(RcStr, Option<Extents>)], name: &RcStr) -> Option<Extents>
    ensures { result ≡ Fo.bound_shape (bindings_of bindings.now) (rc_str_bytes name.now) }
{
    for (x, s) in bindings {
        if same_name(x, name) {
            return *s;
        }
    }
    None
}

/// A binding once more.
fn share_binding(x: &RcStr, s: Option<Extents>) -> Result<(RcStr, Option<Extents>), NoMemory>
    ensures name { IfOk result (λ b. rc_str_bytes b.0 ≡ rc_str_bytes x.now) }
    ensures shape { IfOk result (λ b. b.1 ≡ s) }
{
    let name = x.clone()?;
    Ok((name, s))
}

/// Shares the bindings and appends them.
fn share_onto(
    list: &mut Vec<(RcStr, Option<Extents>)>,
    more: &[(RcStr, Option<Extents>)],
) -> Result<(), NoMemory>
    ensures { OnOk result (
        bindings_of list.new.items ≡ bindings_of list.old.items ++ bindings_of more.now) }
{
    for (x, s) in more {
        list.push(share_binding(x, *s)?)?;
    }
    Ok(())
}

/// The variables with one more, which is the innermost.
pub fn bind(
    alloc: Global,
    bindings: &[(RcStr, Option<Extents>)],
    name: &RcStr,
    s: Option<Extents>,
) -> Result<Vec<(RcStr, Option<Extents>)>, NoMemory>
    ensures { IfOk result (λ v.
        bindings_of v.items ≡ (rc_str_bytes name.now, s) ∷ bindings_of bindings.now) }
{
    let mut list = vec![in alloc; share_binding(name, s)?]?;
    share_onto(&mut list, bindings)?;
    Ok(list)
}
