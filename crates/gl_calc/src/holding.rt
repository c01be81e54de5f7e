//! What a calculator holds and remembers from one calculation to the next.
ghost use Rattle.std.specs.Prelude.{◌≡◌, [], None, IsSome, true, if◌then◌else◌};
ghost use Rattle.std.specs.Prelude.{option_copied};
ghost use Rattle.gl_calculus.specs.Calculation.Memory as M;
ghost use Rattle.gl_ast.specs.View.{version_tree};
ghost use Rattle.gl_calc.specs.Held.{table_of, Parts, held_by};

use crate::Answer;
use crate::ending::{Answered, Ended};
use crate::table::Table;
use gl_ast::Version;
use std::alloc::Global;

/// Whether the versions are the same.
pub fn same_version(a: Version, b: Version) -> bool
    ensures { result ≡ M.same_version (version_tree a) (version_tree b) }
{
    match (a, b) {
        (Version::One, Version::One) => true,
        (Version::One, Version::Two) => false,
        (Version::Two, Version::One) => false,
        (Version::Two, Version::Two) => true,
    }
}

/// What the latest calculation came to, where it is of the same version and nothing was touched
/// since.
pub fn standing(is_same: bool, ended: Option<Answer>) -> Option<Answer>
    ensures { result ≡ (if is_same then ended else None) }
{
    if is_same { ended } else { None }
}

/// The table of the held answer.
pub fn table_of<'a>(answered: &'a Answered, tables: &'a [Table]) -> Option<&'a Table>
    ensures { option_copied result ≡ table_of tables.now answered.now }
{
    match &answered.own {
        Some(table) => Some(table),
        None => tables.last(),
    }
}

/// The held answer, with a table of its own. That is the last of the tables, where it has none.
pub fn parted(held: Option<Answered>, tables: &mut Vec<Table>) -> Option<Answered>
    ensures { Parts tables.old.items held tables.new.items result }
{
    match held {
        Some(answered) => Some(with_own(answered, tables)),
        None => None,
    }
}

/// The answer, with a table of its own.
fn with_own(answered: Answered, tables: &mut Vec<Table>) -> Answered
    ensures version { result.version ≡ answered.version }
    ensures own { result.own ≡ table_of tables.old.items answered }
    ensures same { IsSome answered.own → tables.new.items ≡ tables.old.items }
{
    let Answered { version, own } = answered;
    match own {
        Some(table) => Answered {
            version,
            own: Some(table),
        },
        None => {
            let own = tables.pop();
            Answered { version, own }
        }
    }
}

/// The tables with which a calculation begins: those of another version are none.
pub fn earlier_tables(alloc: Global, tables: Vec<Table>, is_same: bool) -> Vec<Table>
    ensures { result.items ≡ (if is_same then tables.items else []) }
{
    if is_same { tables } else { Vec::new(alloc) }
}

/// What is held after a calculation, and the tables that are kept of it: its answer, if it settled,
/// else what was held before.
pub fn held_after(
    ended: Ended,
    version: Version,
    held: Option<Answered>,
) -> (Option<Answered>, Vec<Table>)
    ensures held { result.0 ≡ held_by ended.answer version ended.beyond held }
    ensures tables { result.1.items ≡ ended.tables.items }
{
    let Ended {
        answer,
        tables,
        beyond,
    } = ended;
    match answer {
        Answer::Settled { .. } => {
            let own = beyond;
            (Some(Answered { version, own }), tables)
        }
        Answer::Spent(_) => (held, tables),
    }
}
