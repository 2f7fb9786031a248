// Laws on lines: the functions do nothing, and their clauses are the laws.
ghost use Rattle.std.specs.Prelude.{◌≡◌, ℕ, List};
ghost use Rattle.script_lines.specs.Columns.{BreaksAt};
ghost use Rattle.script_text.specs.ScriptText.{IsText, Means, line_of};
ghost use Rattle.script_text.specs.declared.script_line.ScriptLine.{ScriptLine as AnyLine};
ghost use Rattle.script_text.specs.CheckGrammar.{CheckedLine, IsCheckLine, IsValidCheck, check_text_of};
ghost use Rattle.script_text.specs.ScriptGrammar.{Line, IsLine, IsValid, text_of};

/// Script lines with one text are one line.
pub fn one_line()
    ensures { (a b : Line) → IsValid a → IsValid b → text_of a ≡ text_of b → a ≡ b }
{}

/// What a text means that was read as a line.
pub fn a_text_means_its_line()
    ensures { (text : List ℕ) (line : AnyLine) → IsText text line → Means text (line_of line) }
{}

/// A text has at most one column as a script line.
pub fn one_column()
    ensures { (text : List ℕ) (a b : ℕ) → BreaksAt IsLine text a → BreaksAt IsLine text b → a ≡ b }
{}

/// Check lines with one text are one line.
pub fn one_check_line()
    ensures { (a b : CheckedLine) → IsValidCheck a → IsValidCheck b → check_text_of a ≡ check_text_of b → a ≡ b }
{}

/// A text has at most one column as a check line.
pub fn one_check_column()
    ensures { (text : List ℕ) (a b : ℕ) → BreaksAt IsCheckLine text a → BreaksAt IsCheckLine text b → a ≡ b }
{}
