//! Look-ups that have an answer past the end too.
ghost use Rattle.std.specs.Prelude.{◌≡◌, slice_index, slice_index_or};

/// Returns the number at a place; 0 if there is none.
pub fn number_at(numbers: &[u32], place: u32) -> u32
    ensures { result ≡ slice_index numbers.now place }
{
    numbers.get(place as usize).copied().unwrap_or(0)
}

/// Returns the place that the entry at a place names.
pub fn link_at(links: &[Option<u32>], place: u32) -> Option<u32>
    ensures { result ≡ slice_index_or links.now place None }
{
    links.get(place as usize).copied().flatten()
}
