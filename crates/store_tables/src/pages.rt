//! The statement that reads decided requests in the order of their decisions.

ghost use Rattle.std.specs.Prelude.{◌≡◌, false, map, pos};
ghost use Rattle.std.specs.FinMap.{entries};
ghost use Rattle.sqlite.specs.Held.{state};
ghost use Rattle.store_model.specs.Contents.{request_of};
ghost use Rattle.store_model.specs.Pages.{IsPage};
ghost use Rattle.store_tables.specs.Store.{ReadsTables, SeesStore};

use crate::reads::rows_in;
use sqlite::{Alter, Connection, Error, params};
use std::alloc::Global;
use store_model::RequestRow;

/// The decided requests from a place on, by rising place, and at most `most` of them. A text that
/// is no UTF-8 is refused with `Utf8Error`.
pub fn requests_from<S: Alter>(
    alloc: Global,
    conn: &mut Connection<S>,
    place: u32,
    most: u32,
) -> Result<Vec<RequestRow>, Error>
    requires { SeesStore (state S.Store conn.old) }
    ensures reads { ReadsTables (state S.Store conn.old) (state S.Store conn.new) result
        (λ c rows. IsPage (pos place) most (entries c.requests) (map request_of rows.items)) }
    ensures mode { conn.old.in_transaction ≡ false → conn.new.in_transaction ≡ false }
{
    let shown = conn.query_all(
        "SELECT * FROM request WHERE place >= ?1 ORDER BY place LIMIT ?2",
        params![place, most],
    )?;
    rows_in(alloc, shown)
}
