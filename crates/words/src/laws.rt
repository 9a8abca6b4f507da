//! Laws of command lines and of jobs files. The functions do nothing: their contracts are the laws.
ghost use Rattle.std.specs.Prelude.{◌≡◌, ℕ, List as Plain, None, true};
ghost use Rattle.jtext.specs.declared.json.Json as tree;
ghost use Rattle.words.specs.Asked.{command_of_words};
ghost use Rattle.words.specs.Grammar.{IsCommand};
ghost use Rattle.words.specs.JobsFaults.{fault};
ghost use Rattle.words.specs.JobsFile.{IsJobsFile};
ghost use Rattle.words.specs.Paths.{are_apart};
ghost use Rattle.words.specs.Refusals.{refusal};
ghost use Rattle.words.specs.declared.ask.Ask as asks;
ghost use Rattle.words.specs.declared.command.Command.TheVariants as command;

/// Words are refused exactly where they are outside the grammar.
pub fn refused_outside_the_grammar()
    ensures taken { (words : Plain (Plain ℕ)) → IsCommand words → refusal words ≡ None }
    ensures only { (words : Plain (Plain ℕ)) → refusal words ≡ None → IsCommand words }
{}

/// A tree has a fault exactly where it is no jobs file.
pub fn faulty_where_no_jobs_file()
    ensures taken { (file : Plain ℕ) (t : tree.Json) → IsJobsFile file t → fault file t ≡ None }
    ensures only { (file : Plain ℕ) (t : tree.Json) → fault file t ≡ None → IsJobsFile file t }
{}

/// The input of the job that a command line asks for is none of the files that the job writes.
pub fn inputs_are_apart()
    ensures { (words : Plain (Plain ℕ)) (a : asks.Ask) →
        refusal words ≡ None → command_of_words words ≡ command.One a
        → are_apart a.input a.output ≡ true }
{}
