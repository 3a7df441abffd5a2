//! Changes of the vector of rows at a place, whatever its keys are: both tables stand on these.
//!
//! Each takes the vector and not the table, since a table is in order only before and after such a
//! change, and says what it does to the list alone. None takes memory.

ghost use Rattle.std.specs.Prelude.{◌≡◌, ◌<◌, ◌≤◌, ◌+◌, length, map as map_list, vec_len, vec_capacity};
ghost use Rattle.std.specs.List.{insert as with_inserted};
ghost use Rattle.dm_tables.specs.Rows.{changed};
ghost use Rattle.dm_rows.specs.Places.{row_of, EditsAt};

use crate::edit::Edit;

// The row stands at the place, and those from there on one further on. There is room.
pub(crate) fn put<T: Drop>(rows: &mut Vec<T>, at: usize, row: T)
    requires there { at ≤ vec_len rows.old }
    requires room { vec_len rows.old < vec_capacity rows.old }
    ensures items { rows.new.items ≡ with_inserted rows.old.items at row }
    ensures len { vec_len rows.new ≡ vec_len rows.old + 1 }
    ensures capacity { vec_capacity rows.new ≡ vec_capacity rows.old }
{
    match rows.insert(at, row) {
        Ok(()) => (),
        Err(_) => unreachable!(),
    }
}

// The row at the place is changed where it stands.
pub(crate) fn edit_at<K, V, F: Edit<V>>(rows: &mut [Box<(K, V)>], at: usize, edit: &F)
    requires { at < length rows.old }
    ensures { EditsAt (F.edited edit.now) at (map_list row_of rows.old) (map_list row_of rows.new) }
{
    let row = &mut rows[at];
    edit.edit(&mut row.1);
}

// Each row is changed where it stands.
pub(crate) fn edit_all<K, V, F: Edit<V>>(rows: &mut [Box<(K, V)>], edit: &F)
    ensures { map_list row_of rows.new ≡ changed (λ _. F.edited edit.now) (map_list row_of rows.old) }
{
    for row in rows.iter_mut() {
        edit.edit(&mut row.1);
    }
}
