// The entries for k, counted and written as records.
ghost use Rattle.catalogue.specs.listing.Listing.{SearchAsked, ListedFrom};

use super::noting::Aim;
use bases::Basis;

// The dimension that the targets span, and how many entries were found and how many of them shown.
#[derive(Clone, Copy)]
pub struct Listing {
    pub ell: usize,
    pub found: u64,
    pub shown: usize,
}

// The first entries for `k` of the targets with the basis `b`, at most `limit`: counted, and the records that fit written from the start of `out`.
pub fn list_entries(gens: &[u64], b: Basis, k: usize, limit: u64, out: &mut [u64]) -> Listing
    requires { SearchAsked gens.now b k }
    ensures { ListedFrom gens.now b k limit out.old out.new result }
{
    let ell = b.len;
    if k < ell {
        return Listing {
            ell,
            found: 0,
            shown: 0,
        };
    }
    let counts = super::meeting::meet_all(
        gens,
        b,
        k,
        Aim::Records(limit),
        &gens[..0],
        &gens[..0],
        out,
    );
    Listing {
        ell,
        found: counts.found,
        shown: counts.shown,
    }
}
