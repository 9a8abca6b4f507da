//! What holds of every argument of a kernel's program.
ghost use Rattle.std.specs.Prelude.{◌≡◌, ℕ, List};
ghost use Rattle.kspec.specs.Arguments.{AreFilled};

/// The arguments of the spec, the connection file and the folder fix the arguments of the program.
pub fn one_filling()
    ensures { (file folder : List ℕ) (words a b : List (List ℕ)) →
        AreFilled file folder words a → AreFilled file folder words b → a ≡ b }
{}
