// The names of kinds in files: the one table of them in code, byte strings compared, and the kind that one names.
ghost use Rattle.std.specs.Prelude.{◌≡◌};
ghost use Rattle.kinds.specs.Kinds.{name_of, same, kind_named};

use super::Kind;

// The bytes that name the kind.
pub fn name_of(kind: Kind) -> &'static [u8]
    ensures { result.now ≡ name_of kind }
{
    match kind {
        Kind::Poly => b"poly",
        Kind::Short => b"short",
        Kind::Circ => b"circ",
        Kind::Mat => b"mat",
        Kind::List => b"list",
        Kind::Mid => b"mid",
    }
}

// Whether two byte strings are the same.
pub fn equal(s: &[u8], t: &[u8]) -> bool
    ensures { result ≡ same s.now t.now }
{
    s == t
}

// The kind that the bytes name.
pub fn kind_named(s: &[u8]) -> Option<Kind>
    ensures { result ≡ kind_named s.now }
{
    super::KINDS
        .iter()
        .copied()
        .find(|kind| equal(name_of(*kind), s))
}
