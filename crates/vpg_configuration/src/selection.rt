//! Selections of features.
ghost use Rattle.std.specs.Prelude.{◌≡◌, bytes_eq};
ghost use Rattle.vpg_configuration.specs.Deciding.{selection_of, selection_word};

/// The selection of a feature, in FeatureIDE's words.
#[derive(Clone, Copy, Debug, PartialEq, Eq)]
pub enum Selection {
    /// The feature is in.
    Selected,
    /// The feature is out.
    Unselected,
    /// Nothing is said of the feature.
    Undefined,
}

/// Whether two texts are the same.
pub(crate) fn is_same(a: &[u8], b: &[u8]) -> bool
    ensures { result ≡ bytes_eq a.now b.now }
{
    a == b
}

/// Returns the selection that a word stands for.
pub(crate) fn selection_of(word: &[u8]) -> Option<Selection>
    ensures { result ≡ selection_of word.now }
{
    if is_same(word, b"selected") {
        return Some(Selection::Selected);
    }
    if is_same(word, b"unselected") {
        return Some(Selection::Unselected);
    }
    if is_same(word, b"undefined") {
        return Some(Selection::Undefined);
    }
    None
}

/// Returns the word for a selection.
pub(crate) fn word_of(selection: Selection) -> &'static [u8]
    ensures { result.now ≡ selection_word selection }
{
    match selection {
        Selection::Selected => b"selected",
        Selection::Unselected => b"unselected",
        Selection::Undefined => b"undefined",
    }
}
