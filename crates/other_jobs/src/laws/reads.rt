//! What a read of the loop brings.
ghost use Rattle.std.specs.Prelude.{ℕ, List, Result};
ghost use Rattle.world.specs.declared.entry.Entry.{Entry};
ghost use Rattle.ready_loop.specs.declared.fault.LoopFault as fault;
ghost use Rattle.ready_loop.specs.declared.next.Next as next;
ghost use Rattle.ready_loop.specs.Reads.{NextCame};
ghost use Rattle.other_jobs.specs.Reads.{NextBrings};

/// A read of the loop brings its piece to the one job of the connection. Any other answer brings
/// nothing to any job.
pub fn reads_bring_bytes_to_one_job()
    ensures { (result : Result next.Next fault.LoopFault) (room : ℕ) (buffer : List ℕ)
        (before after : List Entry) → NextCame result room buffer before after →
        NextBrings result room buffer before after }
{}
