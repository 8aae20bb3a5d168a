//! Tests on a character.
ghost use Rattle.std.specs.Prelude.{◌≡◌};
ghost use Rattle.own_tree.specs.Characters as spec;

/// LF and CR; the two together end one line too.
pub(crate) fn is_line_end(c: char) -> bool
    ensures { result ≡ spec.is_line_end c }
{
    c == '\n' || c == '\r'
}

pub(crate) fn is_white(c: char) -> bool
    ensures { result ≡ spec.is_white c }
{
    c == ' ' || c == '\t' || is_line_end(c)
}

/// `_`, or XID_Start of Unicode Standard Annex 31.
pub(crate) fn starts_name(c: char) -> bool
    ensures { result ≡ spec.starts_name c }
{
    c == '_' || unicode_ident::is_xid_start(c)
}

/// XID_Continue of Unicode Standard Annex 31.
pub(crate) fn continues_name(c: char) -> bool
    ensures { result ≡ spec.continues_name c }
{
    unicode_ident::is_xid_continue(c)
}
