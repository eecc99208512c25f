//! Laws of scripts. Each function does nothing: its contract is the law.
ghost use Rattle.std.specs.Prelude.{◌≡◌, ◌↔◌, ◌++◌, ◌∷◌, [], ℕ, List};
ghost use Rattle.gixobj_editor_commands.specs.Views.{CommandView};
ghost use Rattle.gixobj_hash.specs.declared.hash.kind.Kind.{Kind};
ghost use Rattle.gixobj_editor_commands.specs.Lines.{DecodesToCommand};
ghost use Rattle.gixobj_editor_commands.specs.Scripts.{IsFirstBad, IsScript};
ghost use Rattle.gixobj_hash.specs.Bytes.{newline};

/// A line decodes to at most one command, and a script to at most one list of commands.
pub fn script_parses_uniquely()
    ensures one_command { (hash : Kind) (line : List ℕ) (command command' : CommandView)
        → DecodesToCommand hash line command → DecodesToCommand hash line command' → command ≡ command' }
    ensures one_script { (hash : Kind) (bytes : List ℕ) (commands commands' : List CommandView)
        → IsScript hash bytes commands → IsScript hash bytes commands' → commands ≡ commands' }
{}

/// Bytes have at most one first bad line, and a script has no bad line.
///
/// So a parser with right results parses each script. It rejects no line but the first bad one.
pub fn script_has_no_bad_line()
    ensures one_bad_line { (hash : Kind) (bytes : List ℕ) (number number' : ℕ)
        → IsFirstBad hash bytes number → IsFirstBad hash bytes number' → number ≡ number' }
    ensures no_bad_line { (hash : Kind) (bytes : List ℕ) (commands : List CommandView) (number : ℕ)
        → IsScript hash bytes commands → ¬ IsFirstBad hash bytes number }
{}

/// The last line of a script may lack its newline.
pub fn last_newline_may_be_missing()
    ensures { (hash : Kind) (bytes : List ℕ) (commands : List CommandView)
        → IsScript hash bytes commands ↔ IsScript hash (bytes ++ newline ∷ []) commands }
{}
