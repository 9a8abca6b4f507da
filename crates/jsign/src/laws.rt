//! Laws of the definitions, each the contract of a function without a body.
ghost use Rattle.std.specs.Prelude.{◌≡◌, ◌∷◌, ◌++◌, [], ℕ, List, length};
ghost use Rattle.jsign.specs.Hmac.{signature};
ghost use Rattle.jsign.specs.History.{fresh_of, fresh_items, signatures_of, IsFresh};

/// A signature has 64 digits.
pub fn signature_is_long()
    ensures { (key header parent metadata content : List ℕ) →
        length (signature key header parent metadata content) ≡ 64 }
{}

/// Of items that are offered with their signatures those are kept whose signature is fresh, and
/// these are the fresh signatures.
pub fn fresh_items_are_kept<T>()
    ensures signatures { (offered : List (List ℕ × T)) →
        signatures_of (fresh_items offered) ≡ fresh_of (signatures_of offered) }
    ensures kept { (offered : List (List ℕ × T)) (sig : List ℕ) (item : T) →
        IsFresh (signatures_of offered) sig →
        fresh_items (offered ++ (sig, item) ∷ []) ≡ fresh_items offered ++ (sig, item) ∷ [] }
    ensures left_out { (offered : List (List ℕ × T)) (sig : List ℕ) (item : T) →
        ¬ (IsFresh (signatures_of offered) sig) →
        fresh_items (offered ++ (sig, item) ∷ []) ≡ fresh_items offered }
    ensures none { fresh_items {A = T} [] ≡ [] }
{}
