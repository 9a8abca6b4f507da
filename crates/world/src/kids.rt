//! Child programs.
ghost use Rattle.std.specs.Prelude.{◌≡◌, ◌<◌, length, IfSome};
ghost use Rattle.world.specs.declared.entry.Entry.{Entry};
ghost use Rattle.world.specs.Counts.{CountsBy, ChildCause};
ghost use Rattle.world.specs.Faults.{fault_count};
ghost use Rattle.world.specs.Parts.{OnKids};
ghost use Rattle.world.specs.Rises.{clipped};
ghost use Rattle.jtext.specs.Texts.{AllStrings};
ghost use Rattle.world.specs.Told.{Adds};

use crate::{Did, Journal};
use jtext::{Fields, Text, Texts};

/// One child program for each job.
pub trait Kids: Journal {
    /// How many children could not be started, up to the last value of a `u64`: the journal's
    /// count, where it is told.
    fn child_faults(&self) -> u64
        ensures is { result ≡ (Self.counts self.now).child }
        ensures told { IfSome (Self.journal self.now)
            (λ past. result ≡ clipped (fault_count OnKids past)) };

    /// Starts the child of a job in the folder `dir`: the program and its arguments are `argv`, and
    /// the variables of `env` are added to the environment.
    fn start(&mut self, job: u8, argv: &Texts, env: &Fields, dir: &Text) -> Did
        requires job { job < 16 }
        requires program { 0 < length argv.now }
        requires strings { AllStrings env.now }
        ensures tells { Adds Self.journal self.old self.new
            (Entry.Started job argv.now env.now dir.now result) }
        ensures cause { CountsBy ChildCause Self.counts self.old self.new (result ≡ Did.Failed) };

    /// The exit status of the child where it is seen to have ended. It may be `None` although it
    /// has.
    fn look(&mut self, job: u8) -> Option<i32>
        requires { job < 16 }
        ensures tells { Adds Self.journal self.old self.new (Entry.Looked job result) }
        ensures same { Self.counts self.new ≡ Self.counts self.old };

    /// Ends the child and takes it in.
    fn end(&mut self, job: u8)
        requires { job < 16 }
        ensures tells { Adds Self.journal self.old self.new (Entry.Killed job) }
        ensures same { Self.counts self.new ≡ Self.counts self.old };
}
