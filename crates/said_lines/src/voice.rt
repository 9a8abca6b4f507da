//! What is said to the user, as long as nothing that was said failed.
ghost use Rattle.std.specs.Prelude.{◌≡◌, ◌<◌, ◌≤◌, true, false};
ghost use Rattle.world.specs.Counts.{SayCause, Rose};
ghost use Rattle.said_lines.specs.Between.{SayFailed};
ghost use Rattle.world.specs.Told.{Between};
ghost use Rattle.said_lines.specs.Speech.{Says};

use world::{Say, Wrote};

/// Whether the count of failed says has risen since it was this.
pub fn has_risen<W: Say>(w: &W, faults: u64) -> bool
    requires { faults ≤ (W.counts w.now).say }
    ensures risen { result ≡ true → Rose faults (W.counts w.now).say }
    ensures still { result ≡ false → Rose faults (W.counts w.now).say → ⊥ }
{
    let now = w.say_faults();
    faults < now || now == u64::MAX
}

/// Says the text piece by piece, while no say has failed: once one has, nothing more is said.
pub fn say<W: Say>(w: &mut W, text: &[u8])
    ensures tells { Between W.journal w.old w.new (Says text.now (SayFailed W.counts w.new)) }
    ensures silent { SayFailed W.counts w.old → W.journal w.new ≡ W.journal w.old }
    ensures counts { SayCause (W.counts w.old) (W.counts w.new) ⊥ }
{
    if w.say_faults() == 0 {
        say_while_heard(w, text);
    }
}

fn say_while_heard<W: Say>(w: &mut W, text: &[u8])
    ensures tells { Between W.journal w.old w.new (Says text.now (SayFailed W.counts w.new)) }
    ensures counts { SayCause (W.counts w.old) (W.counts w.new) ⊥ }
{
    let mut rest = text;
    while !rest.is_empty() {
        if w.say_faults() > 0 {
            return;
        }
        match w.write(rest) {
            Wrote::Took(n) => rest = &rest[n as usize..],
            Wrote::Failed => return,
        }
    }
}
