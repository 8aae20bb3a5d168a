//! How two places lie to each other.

ghost use Rattle.std.specs.Prelude.{◌≡◌};
ghost use Rattle.own_shapes.specs.Places.{covers, is_prefix, is_strictly_above, overlaps};

use own_tree::Place;

/// Whether the second list of fields goes on from the first one, or is equal to it.
pub(crate) fn is_prefix(front: &[u32], fields: &[u32]) -> bool
    ensures { result ≡ is_prefix front.now fields.now }
{
    fields.starts_with(front)
}

/// Whether the second place is the first one or lies below it.
pub fn covers(p: &Place, q: &Place) -> bool
    ensures { result ≡ covers p.now q.now }
{
    p.binding == q.binding && is_prefix(p.fields.as_slice(), q.fields.as_slice())
}

/// Whether one of two places is the other one or lies below it.
pub fn overlaps(p: &Place, q: &Place) -> bool
    ensures { result ≡ overlaps p.now q.now }
{
    covers(p, q) || covers(q, p)
}

/// Whether the second place lies below the first one.
pub fn is_strictly_above(p: &Place, q: &Place) -> bool
    ensures { result ≡ is_strictly_above p.now q.now }
{
    covers(p, q) && !covers(q, p)
}
