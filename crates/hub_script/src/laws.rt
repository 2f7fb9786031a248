// Laws on lines: the functions do nothing, and their clauses are the laws.
ghost use Rattle.std.specs.Prelude.{◌≡◌, ℕ, List};
ghost use Rattle.script_lines.specs.Columns.{BreaksAt};
ghost use Rattle.hub_script.specs.HubGrammar.{Line, IsLine, IsValid, text_of};

/// Lines with one text are one line.
pub fn one_line()
    ensures { (a b : Line) → IsValid a → IsValid b → text_of a ≡ text_of b → a ≡ b }
{}

/// A text has at most one column.
pub fn one_column()
    ensures { (text : List ℕ) (a b : ℕ) → BreaksAt IsLine text a → BreaksAt IsLine text b → a ≡ b }
{}
