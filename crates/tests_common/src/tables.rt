//! Tables of texts.

use std::alloc::Global;
use std::test::Fail;

/// Each text of a table is read as the one behind it.
pub fn each_is_read<F: Fn(Global, &str) -> Result<String, Fail>>(
    alloc: Global,
    read: F,
    rows: &[(&str, &str)],
) -> Result<(), Fail>
    requires { F.IsAlwaysCallable read }
{
    for (text, want) in rows {
        let found = read(alloc, text)?;
        if found.as_str() != *want {
            return Err(Fail::new(format_args!("{text}: {}", found.as_str())));
        }
    }
    Ok(())
}
