//! The words that rows ask by.

/// The question of a row. The module of its table says which that is.
pub(crate) enum RowQuestion {
    Add,
    All,
    At,
    Clauses,
    Close,
    Counts,
    Diagram,
    Dual,
    DualOfDual,
    Find,
    Game,
    Get,
    Holds,
    Hopeful,
    HopefulOfDual,
    Is,
    Known,
    Last,
    Line,
    Look,
    MostRules,
    Names,
    OddCounts,
    Or,
    Product,
    Products,
    Project,
    Read,
    Same,
    Sizes,
    Top,
    Tops,
    Twice,
    Write,
    /// No word of any table.
    Nothing,
}

static WORDS: [(&str, RowQuestion); 34] = [
    ("add", RowQuestion::Add),
    ("all", RowQuestion::All),
    ("at", RowQuestion::At),
    ("clauses", RowQuestion::Clauses),
    ("close", RowQuestion::Close),
    ("counts", RowQuestion::Counts),
    ("diagram", RowQuestion::Diagram),
    ("dual", RowQuestion::Dual),
    ("dual-of-dual", RowQuestion::DualOfDual),
    ("find", RowQuestion::Find),
    ("game", RowQuestion::Game),
    ("get", RowQuestion::Get),
    ("holds", RowQuestion::Holds),
    ("hopeful", RowQuestion::Hopeful),
    ("hopeful-of-dual", RowQuestion::HopefulOfDual),
    ("is", RowQuestion::Is),
    ("known", RowQuestion::Known),
    ("last", RowQuestion::Last),
    ("line", RowQuestion::Line),
    ("look", RowQuestion::Look),
    ("most-rules", RowQuestion::MostRules),
    ("names", RowQuestion::Names),
    ("odd-counts", RowQuestion::OddCounts),
    ("or", RowQuestion::Or),
    ("product", RowQuestion::Product),
    ("products", RowQuestion::Products),
    ("project", RowQuestion::Project),
    ("read", RowQuestion::Read),
    ("same", RowQuestion::Same),
    ("sizes", RowQuestion::Sizes),
    ("top", RowQuestion::Top),
    ("tops", RowQuestion::Tops),
    ("twice", RowQuestion::Twice),
    ("write", RowQuestion::Write),
];

/// Returns the question that a word names.
pub(crate) fn asked_of(word: &str) -> &'static RowQuestion {
    for (name, asked) in &WORDS {
        if *name == word {
            return asked;
        }
    }
    &RowQuestion::Nothing
}
