//! The terms of a log's entries, as runs.
ghost use Rattle.std.specs.Prelude.{◌≡◌, ◌+◌, ◌<◌, ◌≤◌, nat_le, ℕ};
ghost use Rattle.std.specs.Vec.{vec_len, vec_capacity};
ghost use Rattle.hc_log.specs.Runs.{term_in, AreRunsBefore};

/// Entries of one term, one after another, up to the next run.
#[derive(Clone, Copy, Debug)]
pub(crate) struct Run {
    /// The index of the first of them.
    pub(crate) first: u64,
    pub(crate) term: u64,
}

/// The term at an index: that of the last run that begins there or before, and 0 where none does.
pub(crate) fn term_in(runs: &[Run], index: u64) -> u64
    requires { (n : ℕ) × AreRunsBefore n runs.now }
    ensures { result ≡ term_in runs.now index }
{
    let count = runs.partition_point(
        |run| -> bool
            ensures { result ≡ nat_le run.now.first index }
        { run.first <= index },
    );
    if count == 0 {
        return 0;
    }
    runs[count - 1].term
}

/// Makes this the term at an index that is after all others: the last run goes on, or another one begins.
pub(crate) fn put_term(runs: &mut Vec<Run>, index: u64, term: u64)
    requires room { vec_len runs.old < vec_capacity runs.old }
    requires first { 1 ≤ index }
    requires before { AreRunsBefore index runs.old.items }
    ensures runs { AreRunsBefore (index + 1) runs.new.items }
    ensures there { term_in runs.new.items index ≡ term }
    ensures before { (i : ℕ) → i < index → term_in runs.new.items i ≡ term_in runs.old.items i }
{
    if term_in(runs.as_slice(), index) == term {
        return;
    }
    runs.push_reserved(Run { first: index, term });
}

/// Takes the term at the last index away: a run that begins there ends.
pub(crate) fn drop_term(runs: &mut Vec<Run>, index: u64)
    requires { AreRunsBefore (index + 1) runs.old.items }
    ensures runs { AreRunsBefore index runs.new.items }
    ensures before { (i : ℕ) → i < index → term_in runs.new.items i ≡ term_in runs.old.items i }
{
    let Some(run) = runs.last() else {
        return;
    };
    if run.first == index {
        runs.pop();
    }
}
