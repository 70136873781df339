ghost use Rattle.std.specs.Prelude.{◌≡◌, [], IfOk, length, nat_le, replicate};
ghost use Rattle.std.specs.List.{list_all};
ghost use Rattle.r2_jbsq.specs.Standing.{chosen, is_freest};

use crate::RoutedRequest;
use crate::row::Row;
use r2_base::{NoMemory, Rid};
use std::alloc::Global;

/// A row for each of so many servers, with nothing open.
pub(crate) fn new_rows(alloc: Global, servers: usize) -> Result<Vec<Row>, NoMemory>
    ensures { IfOk result (λ rows. rows.items ≡ replicate servers []) }
{
    let mut rows = Vec::new(alloc);
    'rows: for _ in 0..servers {
        rows.push(Row::new(alloc)?)?;
    }
    Ok(rows)
}

/// The server that a request goes to: the first of those that hold the fewest, where they hold fewer than n
/// (R2P2, on JBSQ: the server with the shortest bounded queue).
#[tactic(auto, unfolding(crate::specs::Standing::chosen))]
pub(crate) fn chosen(n: u8, rows: &[Row]) -> Option<usize>
    ensures { result ≡ chosen n rows.now }
{
    rows.iter().position(|row| is_freest(n, rows, row))
}

/// Whether a server holds fewer than n requests, and no more than any other does.
fn is_freest(n: u8, rows: &[Row], row: &Row) -> bool
    ensures { result ≡ is_freest n rows.now row.now }
{
    let has_room = row.len() < usize::from(n);
    has_room && holds_fewest(rows, row.len())
}

/// Whether no server holds fewer.
fn holds_fewest(rows: &[Row], len: usize) -> bool
    ensures { result ≡ list_all (λ other. nat_le len (length other)) rows.now }
{
    rows.iter().all(|other| len <= other.len())
}
