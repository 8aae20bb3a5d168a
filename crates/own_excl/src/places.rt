//! Places whose fields are read where they stand.

ghost use Rattle.std.specs.Prelude.{◌≡◌};
ghost use Rattle.own_shapes.specs.Places.{covers, is_prefix, overlaps};
ghost use Rattle.own_excl.specs.View.{place_view};

/// A place that borrows its fields.
#[derive(Clone, Copy)]
pub(crate) struct PlaceRef<'t> {
    pub binding: u32,
    pub fields: &'t [u32],
}

/// Whether the second list of fields goes on from the first one, or is equal to it.
pub(crate) fn is_prefix(front: &[u32], fields: &[u32]) -> bool
    ensures { result ≡ is_prefix front.now fields.now }
{
    fields.starts_with(front)
}

/// Whether the second place is the first one or lies below it.
fn covers(p: PlaceRef<'_>, q: PlaceRef<'_>) -> bool
    ensures { result ≡ covers (place_view p.entry) (place_view q.entry) }
{
    p.binding == q.binding && is_prefix(p.fields, q.fields)
}

/// Whether one of two places is the other one or lies below it.
pub(crate) fn overlaps(p: PlaceRef<'_>, q: PlaceRef<'_>) -> bool
    ensures { result ≡ overlaps (place_view p.entry) (place_view q.entry) }
{
    covers(p, q) || covers(q, p)
}
