//! Kept texts of cells that are saved in another form than before.
ghost use Rattle.std.specs.Prelude.{◌≡◌, ◌≤◌, ◌<◌, ℕ, true, None};
ghost use Rattle.out_fold.specs.Plans.{is_in};
ghost use Rattle.progress_save.specs.Prefix.{stops_at};
ghost use Rattle.progress_save.specs.State.{kept_text, output_of, has_failed};
ghost use Rattle.job_notebook.specs.Kept.{ForgetsSome};

use progress_save::Progress;

/// Forgets the kept texts of the cells that changed, of those that come to be settled, and of the
/// one at which the run stopped.
pub(crate) fn forget_changed(
    progress: &mut Progress,
    changed: &[u32],
    from: u32,
    to: u32,
    stop: Option<u32>,
)
    ensures changed { (i : ℕ) → is_in changed.now i ≡ true → kept_text progress.new i ≡ None }
    ensures settled { (i : ℕ) → from ≤ i → i < to → kept_text progress.new i ≡ None }
    ensures stopped { (i : ℕ) → stops_at stop i ≡ true → kept_text progress.new i ≡ None }
    ensures others { ForgetsSome progress.old progress.new }
    ensures output { output_of progress.new ≡ output_of progress.old }
    ensures failed { has_failed progress.new ≡ has_failed progress.old }
{
    forget_all(progress, changed);
    forget_from(progress, from, to);
    if let Some(cell) = stop {
        progress.mark(cell);
    }
}

/// Forgets the kept texts of these cells.
fn forget_all(progress: &mut Progress, cells: &[u32])
    ensures gone { (i : ℕ) → is_in cells.now i ≡ true → kept_text progress.new i ≡ None }
    ensures others { ForgetsSome progress.old progress.new }
    ensures output { output_of progress.new ≡ output_of progress.old }
    ensures failed { has_failed progress.new ≡ has_failed progress.old }
{
    for cell in cells {
        progress.mark(*cell);
    }
}

/// Forgets the kept texts of the cells from one index up to another.
fn forget_from(progress: &mut Progress, from: u32, to: u32)
    ensures gone { (i : ℕ) → from ≤ i → i < to → kept_text progress.new i ≡ None }
    ensures others { ForgetsSome progress.old progress.new }
    ensures output { output_of progress.new ≡ output_of progress.old }
    ensures failed { has_failed progress.new ≡ has_failed progress.old }
{
    for cell in from..to {
        progress.mark(cell);
    }
}
