//! What the parts of an execution have of the job that they are for.
ghost use Rattle.std.specs.Prelude.{◌≡◌, ℕ, List, map};
ghost use Rattle.world.specs.declared.chan.Chan.TheVariants.{Shell, Iopub, Heart};
ghost use Rattle.kernel_talk.specs.Requests.{Identity, message_id};
ghost use Rattle.cell_core.specs.declared.machine.Core as machine;
ghost use Rattle.cell_core.specs.StandsFor.{task_of};
ghost use Rattle.job_notebook.specs.declared.notebook.JobNotebook as book;
ghost use Rattle.job_notebook.specs.State.{merge_of, output_of};
ghost use Rattle.run_journal.specs.Jupyter.{bodies_in, echo, jupyter_codec};
ghost use Rattle.job_journal.specs.Plot.{Plot, IsFor, facts, speaker};
ghost use Rattle.job_journal.specs.Seen.{ReadsSigned};

/// Parts that keep name, key, task, output and merging are for the job that they were for.
pub fn parts_stay_for_their_job()
    ensures { (p : Plot) (number : ℕ) (s t : Identity) (core next : machine.Core)
        (book now : book.JobNotebook) → IsFor p number s core book → t.name ≡ s.name →
        t.key ≡ s.key → task_of next ≡ task_of core → output_of now ≡ output_of book →
        merge_of now ≡ merge_of book → IsFor p number t next now }
{}

/// On shell and IOPub the job reads the messages that are signed under its key, and on the
/// heartbeat each body; what it sends, and the ids of its messages, are those of its session.
pub fn the_job_reads_its_kernel()
    ensures shell { (p : Plot) → ReadsSigned p.setting.key (facts p) Shell }
    ensures iopub { (p : Plot) → ReadsSigned p.setting.key (facts p) Iopub }
    ensures heart { (p : Plot) (bytes : List ℕ) →
        (facts p).codec.messages Heart bytes ≡ map (λ body. echo) (bodies_in Heart bytes) }
    ensures codec { (p : Plot) → (facts p).codec ≡ jupyter_codec (speaker p) }
    ensures ids { (p : Plot) (n : ℕ) → (facts p).msg_id n ≡ message_id p.setting.session n }
{}
