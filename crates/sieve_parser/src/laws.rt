//! The laws of the grammar: what the reading machine reads, and where it stops; that a script has one tree or one
//! error, and no more lexemes than bytes.
ghost use Rattle.std.specs.Prelude.{◌≡◌, ◌≢◌, ◌≤◌, ◌++◌, ◌∷◌, [], ℕ, List, length};
ghost use Rattle.sieve_parser.specs.Faults.{IsViableWithinDepth};
ghost use Rattle.sieve_parser.specs.Grammar.{IsViable, IsScript, commands_spelled};
ghost use Rattle.sieve_parser.specs.Lexemes.{Lexeme};
ghost use Rattle.sieve_parser.specs.TokenMachine.{Symbol, wrong, reading, step, IsDone};
ghost use Rattle.sieve_parser.specs.Scripts.{IsParsed, IsParseRefusal};
ghost use Rattle.sieve_parser.specs.Tree.{CommandsTree};
ghost use Rattle.sieve_parser.specs.declared.error.ParseError.{ParseError};
ghost use Rattle.sieve_parser.specs.declared.error.ParseError.TheVariants.{Memory};

/// What the machine has read can be completed to a script.
pub fn what_is_read_begins_a_script()
    ensures { (ls : List Lexeme) (stack : List Symbol) → reading ls ≡ Some stack
        → IsViableWithinDepth ls }
{}

/// After what the machine has read, a lexeme that is wrong there begins no script.
pub fn what_is_wrong_begins_no_script()
    ensures { (ls : List Lexeme) (l : Lexeme) (stack : List Symbol) → reading ls ≡ Some stack
        → step stack l ≡ wrong → IsViable (ls ++ l ∷ []) → ⊥ }
{}

/// After what the machine has read, the script can't end if something still has to be read.
pub fn what_is_open_is_no_script()
    ensures { (ls : List Lexeme) (stack : List Symbol) (cs : CommandsTree) → reading ls ≡ Some stack
        → (IsDone stack → ⊥) → IsScript ls cs → ⊥ }
{}

/// Lexemes are the spelling of at most one tree.
pub fn scripts_are_unique()
    ensures { (ls : List Lexeme) (cs ds : CommandsTree) → IsScript ls cs → IsScript ls ds
        → cs ≡ ds }
{}

/// A script has at most one tree, because it also has at most one list of tokens.
pub fn parsed_trees_are_unique()
    ensures { (script : List ℕ) (cs ds : CommandsTree) → IsParsed script cs → IsParsed script ds
        → cs ≡ ds }
{
    sieve_lexer::laws::tokens_are_unique();
}

/// A script has at least as many bytes as its tree has lexemes.
pub fn scripts_are_as_long_as_their_trees()
    ensures { (script : List ℕ) (cs : CommandsTree) → IsParsed script cs
        → length (commands_spelled 0 cs) ≤ length script }
{}

/// A script has at most one error, apart from a lack of memory: one kind of fault, at one place.
pub fn refusals_are_unique()
    ensures { (script : List ℕ) (e f : ParseError) → IsParseRefusal script e
        → IsParseRefusal script f → e ≢ Memory → f ≢ Memory → e ≡ f }
{
    sieve_lexer::laws::tokens_are_unique();
    sieve_lexer::laws::fault_is_unique();
    sieve_lexer::laws::tokens_have_no_fault();
}

/// A script that has a tree is refused only for lack of memory.
pub fn parsed_scripts_have_no_fault()
    ensures { (script : List ℕ) (cs : CommandsTree) (e : ParseError) → IsParsed script cs
        → IsParseRefusal script e → e ≡ Memory }
{
    sieve_lexer::laws::tokens_are_unique();
    sieve_lexer::laws::tokens_have_no_fault();
}
