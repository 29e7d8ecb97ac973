// The fields of a line, one after the other.
ghost use Rattle.std.specs.Prelude.{◌≡◌, ◌≢◌, ℕ, List, [], ◌∷◌, MatchOption};
ghost use Rattle.text_parts.specs.Fields.{parts_of};
ghost use Rattle.map_file.specs.FieldWords.{left};

use text_parts::split_once;

/// The fields that are left of a line. One space stands between two fields, and a field may be empty.
#[derive(Clone, Copy, Debug)]
pub struct Fields<'a> {
    rest: Option<&'a [u8]>,
}

impl<'a> Fields<'a> {
    /// The fields of a line without its LF.
    pub fn of(line: &'a [u8]) -> Fields<'a>
        ensures { left result ≡ parts_of line.now }
    {
        Fields { rest: Some(line) }
    }

    /// The first field that is left, and those after it.
    pub fn next(self) -> Option<(&'a [u8], Fields<'a>)>
        ensures { MatchOption result (left self.entry ≡ []) (λ found. left self.entry ≡ found.0.now ∷ left found.1) }
    {
        let rest = self.rest?;
        match split_once(rest, b' ') {
            Some((field, more)) => Some((field, Fields { rest: Some(more) })),
            None => Some((rest, Fields { rest: None })),
        }
    }

    /// The last field that is left, and None where there is another number of them than one.
    pub fn last(self) -> Option<&'a [u8]>
        ensures { MatchOption result ((field : List ℕ) → left self.entry ≢ field ∷ []) (λ field. left self.entry ≡ field.now ∷ []) }
    {
        let (field, after) = self.next()?;
        match after.next() {
            Some(_) => None,
            None => Some(field),
        }
    }

    /// The fields after this word, and None where another field stands there.
    pub fn after(self, word: &str) -> Option<Fields<'a>>
        ensures { MatchOption result ((after : List (List ℕ)) → left self.entry ≢ word.now ∷ after) (λ after. left self.entry ≡ word.now ∷ left after) }
    {
        let (field, after) = self.next()?;
        if field == word.as_bytes() {
            Some(after)
        } else {
            None
        }
    }
}
