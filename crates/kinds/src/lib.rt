// What a kind of map is: its number, the kind of a number (refusal 2), its sizes (refusal 3), and the limits on what is handed in.
// names      its name in files: the table, and the kind that bytes name
// specs/ also has the list of refusals. The map itself: `maps`.
#![tactic(auto)]

ghost use Rattle.std.specs.Prelude.{◌≡◌};
ghost use Rattle.kinds.specs.Kinds.{number_of, kind_numbered, is_list, handed, known_map};
ghost use Rattle.kinds.specs.Sizes.{within, poly_sizes, square_sizes, mat_sizes, list_sizes, mid_sizes, sizes};

pub mod names;

// The most coordinates of a form, targets of a map or list, products of a formula, generators of a menu, cost of one, and bits of a cost (specs/Limits.antt).
pub const COORDINATES: u64 = 64;

pub const TARGETS: usize = 64;

pub const PRODUCTS: usize = 64;

pub const GENERATORS: usize = 4095;

pub const COST: u64 = 65535;

pub const COST_BITS: u64 = 16;

// Document 01's kinds, then those of document 02.
#[derive(Clone, Copy, PartialEq, Eq)]
pub enum Kind {
    Poly,
    Short,
    Circ,
    Mat,
    List,
    Mid,
}

// The kinds in the order of their numbers.
const KINDS: [Kind; 6] = [
    Kind::Poly,
    Kind::Short,
    Kind::Circ,
    Kind::Mat,
    Kind::List,
    Kind::Mid,
];

// The number by which a caller names the kind.
pub fn number_of(kind: Kind) -> u64
    ensures { result ≡ number_of kind }
{
    match kind {
        Kind::Poly => 0,
        Kind::Short => 1,
        Kind::Circ => 2,
        Kind::Mat => 3,
        Kind::List => 4,
        Kind::Mid => 5,
    }
}

// The kind with that number; `None` is refusal 2.
pub fn kind_numbered(number: u64) -> Option<Kind>
    ensures { kind_numbered number ≡ result }
{
    match number {
        0 => Some(Kind::Poly),
        1 => Some(Kind::Short),
        2 => Some(Kind::Circ),
        3 => Some(Kind::Mat),
        4 => Some(Kind::List),
        5 => Some(Kind::Mid),
        _ => None,
    }
}

// Whether the kind is the list: its forms are handed in, and it has no formulae.
pub fn is_list(kind: Kind) -> bool
    ensures { result ≡ is_list kind }
{
    matches!(kind, Kind::List)
}

// How many forms or costs are handed in, where a list hands in c.
pub fn handed(kind: Kind, c: u64) -> u64
    ensures { result ≡ handed kind c }
{
    if is_list(kind) { c } else { 0 }
}

// The kind, if it is known and has formulae; `None` is refusal 2 of a formula.
pub fn known_map(known: Option<Kind>) -> Option<Kind>
    ensures { known_map known ≡ result }
{
    known.filter(|kind| !is_list(*kind))
}

// A kind with its sizes p, q and r: what a caller names.
#[derive(Clone, Copy)]
pub struct Shape {
    pub kind: Kind,
    pub p: u64,
    pub q: u64,
    pub r: u64,
}

// Whether x and y are at least 1 and their product is at most 64.
fn fits(x: u64, y: u64) -> bool
    ensures { result ≡ within x y }
{
    if x == 0 || y == 0 {
        return false;
    }
    y <= COORDINATES / x
}

fn poly_sizes(p: u64, q: u64, r: u64) -> Option<(u64, u64, u64)>
    ensures { poly_sizes p q r ≡ result }
{
    if r != 0 || !fits(p, q) {
        return None;
    }
    Some((p, q, p + q - 1))
}

fn square_sizes(p: u64, q: u64, r: u64) -> Option<(u64, u64, u64)>
    ensures { square_sizes p q r ≡ result }
{
    if r != 0 || p != q || !fits(p, q) {
        return None;
    }
    Some((p, q, p))
}

// The two products are looked at before they are multiplied, so that nothing overflows.
fn mat_sizes(p: u64, q: u64, r: u64) -> Option<(u64, u64, u64)>
    ensures { mat_sizes p q r ≡ result }
{
    if !fits(p, q) || !fits(q, r) {
        return None;
    }
    let n = p * q;
    let m = q * r;
    if !fits(n, m) {
        return None;
    }
    Some((n, m, p * r))
}

fn list_sizes(p: u64, q: u64, r: u64) -> Option<(u64, u64, u64)>
    ensures { list_sizes p q r ≡ result }
{
    if q == 0 || !fits(p, 1) || !fits(r, 1) {
        return None;
    }
    Some((p, 1, r))
}

// p is doubled once it is known to be small, so that nothing overflows.
fn mid_sizes(p: u64, q: u64, r: u64) -> Option<(u64, u64, u64)>
    ensures { mid_sizes p q r ≡ result }
{
    if r != 0 || !fits(p, q) {
        return None;
    }
    let m = 2 * p - 1;
    if q != m {
        return None;
    }
    Some((p, m, p))
}

// n, m and the number of outputs of a map of that shape; `None` is refusal 3.
pub fn sizes_of(shape: Shape) -> Option<(u64, u64, u64)>
    ensures { sizes shape ≡ result }
{
    let Shape { kind, p, q, r } = shape;
    match kind {
        Kind::Poly => poly_sizes(p, q, r),
        Kind::Short | Kind::Circ => square_sizes(p, q, r),
        Kind::Mat => mat_sizes(p, q, r),
        Kind::List => list_sizes(p, q, r),
        Kind::Mid => mid_sizes(p, q, r),
    }
}
