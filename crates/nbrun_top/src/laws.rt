//! Laws of the definitions, each the contract of a function without a body.
ghost use Rattle.std.specs.Prelude.{ℕ, List};
ghost use Rattle.words.specs.declared.ask.Ask.{Ask};
ghost use Rattle.nbrun_top.specs.Executed.{IsFileOf, AreApart, NoneWrites};

/// No job of a jobs file writes to the output of another one, to the input of any, or to the file.
pub fn jobs_are_apart()
    ensures jobs { (file : List ℕ) (common : Ask) (bytes : List ℕ) (asks : List Ask) →
        IsFileOf file common bytes asks → AreApart asks }
    ensures file { (file : List ℕ) (common : Ask) (bytes : List ℕ) (asks : List Ask) →
        IsFileOf file common bytes asks → NoneWrites asks file }
{}
