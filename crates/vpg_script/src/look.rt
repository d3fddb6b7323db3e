//! Looks at the page, which leave it as it is: by what each is about.

use crate::exact::ExactVerdict;
use vpg_sides::Which;

/// A vertex, as a line names it. A name stands in the line that was read.
#[derive(Clone, Copy)]
pub enum Vertex<'t> {
    /// By its identifier.
    Number(u32),
    /// By its name.
    Name(&'t [u8]),
}

/// A verdict that a line asserts of a vertex.
#[derive(Clone, Copy, Debug, PartialEq, Eq)]
pub enum Claim {
    Hopeless,
    Possible,
    Sure,
    Unsure,
}

/// A look at the page as a whole.
#[derive(Clone, Copy)]
pub enum PageLook {
    /// Its decisions, and the verdicts of all vertices.
    Show,
    /// Its entries.
    Trail,
    /// The features that are known in, known out, and open.
    Products,
    /// Moves of Even, if each feature is known and the page is settled.
    Plan,
    /// The number of vertices with each verdict.
    Count,
    /// The picture of its game.
    Draw,
    /// Whether each feature is known.
    Full,
    /// Whether both tables are progress tables.
    Settled,
    /// Which features that are not known are the same in every product left.
    Forced,
    /// Whether no product is left.
    Empty,
    /// The number of products that are left.
    Number,
}

/// A look at a vertex.
#[derive(Clone, Copy)]
pub enum VertexLook {
    /// Why it has its verdicts.
    Why,
    /// A product left in which Even wins from it, for the hopeful table, or Odd, for the dual.
    Example(Which),
    /// Its verdicts after each further decision.
    Offer,
    /// The features that all products left have, or lack, in which Even wins from it.
    Needs,
    /// The decisions to retract so that it is not hopeless any more.
    Repair,
    /// Why Even wins from it in no product left, for the hopeful table, or Odd, for the dual.
    Lost(Which),
    /// Moves of Even, for the hopeful table, or Odd, for the dual, that win from it in every product left.
    Moves(Which),
    /// A picture of the vertices that can be reached from it.
    Draw,
    /// The trace of its verdict, as steps of the system.
    Trace,
    /// In which products left Even wins from it, and in which Odd.
    Winners,
    /// Who wins from it in the products left.
    Decide,
    /// Whether it has this exact verdict.
    Is(ExactVerdict),
    /// Where its edges lead, and which are known to be in every product left, or in none.
    Edges,
}

/// A look at a feature.
#[derive(Clone, Copy)]
pub enum FeatureLook {
    /// Whether it is known to be in, or out.
    Known,
    /// Why it is known, or else why the vertex of its name has its verdicts.
    Why,
    /// The edges whose guard names F, and how many there are.
    Uses,
}

/// A look at the page. Names stand in the line that was read.
#[derive(Drop)]
pub enum Look<'t> {
    /// At the page as a whole.
    OfPage(PageLook),
    /// At a vertex.
    OfVertex(VertexLook, Vertex<'t>),
    /// At the verdicts of some vertices.
    OfVertices(Vec<Vertex<'t>>),
    /// Whether a vertex has these verdicts.
    OfClaims(Vertex<'t>, Vec<Claim>),
    /// At a feature, by its name.
    OfFeature(FeatureLook, &'t [u8]),
    /// Why one more decision contradicts the page: whether the feature is to be in, and its name.
    OfChoice(bool, &'t [u8]),
}
