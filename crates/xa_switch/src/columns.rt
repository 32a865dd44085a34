//! Rows that are dealt into columns.
ghost use Rattle.std.specs.Prelude.{◌≡◌, ℕ, ◌<◌, ◌≤◌, [], length, map, replicate, IfOk, vec_capacity};
ghost use Rattle.std.specs.List.{All};
ghost use Rattle.xa_switch.specs.Columns.{put_row};

use std::alloc::{AllocError, Global};

/// Each element of the row goes to the end of its column.
pub(crate) fn deal<X: Drop>(mut columns: Vec<Vec<X>>, row: Vec<X>) -> Vec<Vec<X>>
    requires row { length row.items ≤ length columns.items }
    requires room { All (λ c. length c.items < vec_capacity c) columns.items }
    ensures dealt { map (λ c. c.items) result.items ≡ put_row (map (λ c. c.items) columns.items) row.items }
    ensures capacity { map (λ c. vec_capacity c) result.items ≡ map (λ c. vec_capacity c) columns.items }
{
    let mut place = 0usize;
    for x in row {
        let column = &mut columns[place];
        column.push_reserved(x);
        place += 1;
    }
    columns
}

/// So many empty columns, each with room for so many elements.
pub(crate) fn reserve_columns<X: Drop>(
    alloc: Global,
    count: usize,
    room: usize,
) -> Result<Vec<Vec<X>>, AllocError>
    ensures empty { IfOk result (λ v. map (λ c. c.items) v.items ≡ replicate count []) }
    ensures room { IfOk result (λ v. All (λ c. room ≤ vec_capacity c) v.items) }
{
    let mut columns = Vec::with_capacity(alloc, count)?;
    for _place in 0..count {
        columns.push(Vec::with_capacity(alloc, room)?)?;
    }
    Ok(columns)
}
