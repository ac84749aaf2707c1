//! The rows that a replica begins with: whether their keys rise and lie in its span, and the table of them.
ghost use Rattle.std.specs.Prelude.{◌≡◌, ◌↔◌, ℕ, List, Some, IfOk, true};
ghost use Rattle.replica.specs.Prelude.{KeysRise, value_among};
ghost use Rattle.replica.specs.Rows.{value_at};
ghost use Rattle.replica.specs.Starts.{AreInside};

use crate::table::Table;
use spans::Span;
use std::alloc::{AllocError, Global};
use std::cmp::Ordering;
use timestamps::{Key, Value};

/// Whether the keys rise.
pub(crate) fn rise(rows: &[(Key, Value)]) -> bool
    ensures { (result ≡ true) ↔ KeysRise rows.now }
{
    for at in 1..rows.len() {
        if rows[at - 1].0.cmp(&rows[at].0) != Ordering::Less {
            return false;
        }
    }
    true
}

/// Whether the keys lie in the span.
pub(crate) fn are_inside(span: &Span, rows: &[(Key, Value)]) -> bool
    ensures { (result ≡ true) ↔ AreInside span.now rows.now }
{
    rows.iter().all(|row| span.contains(&row.0))
}

/// A table of these rows.
pub(crate) fn table_of(alloc: Global, rows: Vec<(Key, Value)>) -> Result<Table, AllocError>
    requires { KeysRise rows.items }
    ensures { IfOk result (λ table. (x : List ℕ) → value_at table x ≡ value_among rows.items x) }
{
    let mut table = Table::new(alloc);
    for (key, value) in rows {
        table.change(&key, Some(value))?;
    }
    Ok(table)
}
