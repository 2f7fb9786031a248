// Laws on what is shown: the functions do nothing, and their clauses are the laws.
ghost use Rattle.std.specs.Prelude.{◌≡◌, ℕ, List};
ghost use Rattle.std.specs.List.{AllZip};
ghost use Rattle.script_lines.specs.Lines.{Line};
ghost use Rattle.script_lines.specs.Played.{IsLineOf};
ghost use Rattle.apei_check.specs.declared.text.show.Show.{Show};
ghost use Rattle.apei_check.specs.Tables.{AreErstLines, AreHestLines, AreBertLines};
ghost use Rattle.apei_check.specs.Frames.{AreRecordLines, AreBlockLines};
ghost use Rattle.apei_check.specs.Texts.{TextShows};

use script_text::one_check_line;

/// What a check of an Error Record Serialization Table shows is one list of lines: what is asked for and the bytes say which.
pub fn erst_lines_are_one_list()
    ensures { (show : Show) (bytes : List ℕ) (lines others : List (List ℕ)) → AreErstLines show bytes lines
        → AreErstLines show bytes others → lines ≡ others }
{}

/// So is what a check of a Hardware Error Source Table shows.
pub fn hest_lines_are_one_list()
    ensures { (show : Show) (bytes : List ℕ) (lines others : List (List ℕ)) → AreHestLines show bytes lines
        → AreHestLines show bytes others → lines ≡ others }
{}

/// So is what a check of a Boot Error Record Table shows.
pub fn bert_lines_are_one_list()
    ensures { (show : Show) (bytes : List ℕ) (lines others : List (List ℕ)) → AreBertLines show bytes lines
        → AreBertLines show bytes others → lines ≡ others }
{}

/// So is what a check of an error record shows.
pub fn record_lines_are_one_list()
    ensures { (show : Show) (bytes : List ℕ) (lines others : List (List ℕ)) → AreRecordLines show bytes lines
        → AreRecordLines show bytes others → lines ≡ others }
{}

/// So is what a check of an error status block shows.
pub fn block_lines_are_one_list()
    ensures { (show : Show) (bytes : List ℕ) (lines others : List (List ℕ)) → AreBlockLines show bytes lines
        → AreBlockLines show bytes others → lines ≡ others }
{}

/// What lines of a script show is one list of lines each, and so one text.
pub fn lines_have_one_text()
    ensures { (show : Show) (lines : List Line) (shown others : List (List (List ℕ)))
        → AllZip (λ line one. IsLineOf (λ text. TextShows show text one) line) lines shown
        → AllZip (λ line one. IsLineOf (λ text. TextShows show text one) line) lines others → shown ≡ others }
{
    one_check_line();
}
