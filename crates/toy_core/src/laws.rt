//! What the definitions imply, each the contract of a function without a body.
ghost use Rattle.std.specs.Prelude.{◌≡◌, ℕ, List};
ghost use Rattle.toy_lang.specs.declared.effect.Effect.{Effect};
ghost use Rattle.toy_lang.specs.ToyOut.{publication};
ghost use Rattle.toy_core.specs.declared.outbox.Outbox.{Outbox};
ghost use Rattle.toy_core.specs.Notes.{cell_notes, messages_in};
ghost use Rattle.toy_core.specs.Outboxes.{rest_due, trim_box};

/// What a cell says, on whatever channel, is what the kernel publishes for its text, from busy to idle
/// with its reply.
pub fn a_cell_says_what_is_published()
    ensures { (code : List ℕ) (count : ℕ) (es : List Effect) →
        messages_in (cell_notes code count es) ≡ publication code count es }
{}

/// Where what was handed out is let go, what is left stays.
pub fn what_is_left_stays()
    ensures { (box : Outbox) (coming : List ℕ) →
        rest_due (trim_box box) coming ≡ rest_due box coming }
{}
