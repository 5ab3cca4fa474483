//! The laws of the tokens: a script has one list of tokens, or one fault.
ghost use Rattle.std.specs.Prelude.{◌≡◌, ℕ, List};
ghost use Rattle.sieve_lexer.specs.Tokens.{AreTokens, IsFault};
ghost use Rattle.sieve_lexer.specs.declared.token.Token.{Token};

/// A script is at most one list of tokens.
pub fn tokens_are_unique()
    ensures { (script : List ℕ) (tokens others : List Token) → AreTokens script tokens
        → AreTokens script others → tokens ≡ others }
{}

/// A script has its fault at only one place.
pub fn fault_is_unique()
    ensures { (script : List ℕ) (place other : ℕ) → IsFault script place → IsFault script other
        → place ≡ other }
{}

/// A script that is a list of tokens has no fault.
pub fn tokens_have_no_fault()
    ensures { (script : List ℕ) (tokens : List Token) (place : ℕ) → AreTokens script tokens
        → IsFault script place → ⊥ }
{}
