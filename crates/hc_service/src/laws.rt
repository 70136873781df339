//! What holds of batches.

ghost use Rattle.hc_service.specs.Laws.{BatchesAnswer, BatchesRun};

/// After a batch the service keeps what one thread would, and has counted every request to write and each request to read that was
/// this member's to answer.
pub fn batches_run()
    ensures { BatchesRun }
{}

/// Over what one thread keeps after the entries before, a batch gives the one-thread service's replies to exactly the requests that
/// this member is to answer, in the order of their indexes.
pub fn batches_answer()
    ensures { BatchesAnswer }
{}
