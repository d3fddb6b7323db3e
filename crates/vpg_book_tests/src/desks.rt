//! Tests of trails and desks.
mod desks;
mod trails;
