// The keyword at the front of a line.
ghost use Rattle.std.specs.Prelude.{◌≡◌, ℕ, List, MatchResult};
ghost use Rattle.script_lines.specs.Keywords.{common_length, HasNoKeyword, IsFirstKeyword};

/// A word that lines of a language begin with, together with the space behind it where something follows.
pub trait Keyword: Copy {
    // Its bytes.
    ghost codes: { Self → List ℕ };

    /// Its bytes.
    fn bytes(self) -> &'static [u8]
        ensures { result.now ≡ codes self };
}

/// How many first bytes two texts have in common.
pub fn common_len(text: &[u8], word: &[u8]) -> usize
    ensures { result ≡ common_length word.now text.now }
{
    for (i, byte) in word.iter().enumerate() {
        if i >= text.len() || text[i] != *byte {
            return i;
        }
    }
    word.len()
}

/// The first of the keywords that a text begins with, or how far it goes along with one.
pub fn keyword_of<K: Keyword>(text: &[u8], keywords: &[K]) -> Result<K, usize>
    ensures { MatchResult result
        (IsFirstKeyword K.codes text.now keywords.now)
        (λ reach. HasNoKeyword K.codes text.now reach keywords.now) }
{
    let mut reach = 0;
    for keyword in keywords {
        let bytes = keyword.bytes();
        let common = common_len(text, bytes);
        if common == bytes.len() {
            return Ok(*keyword);
        }
        if common > reach {
            reach = common;
        }
    }
    Err(reach)
}
