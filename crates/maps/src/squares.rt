// The coefficient forms of square poly sizes.
ghost use Rattle.std.specs.Prelude.{◌≡◌};
ghost use Rattle.kinds.specs.declared.Kind.TheVariants as kind;
ghost use Rattle.kinds.specs.Sizes.{shape_of};
ghost use Rattle.maps.specs.Target.{target_form};
ghost use Rattle.maps.specs.Squares.{InTable};

// Those of size 1, then those of size 2, and so on to 8: of size s there are 2 s - 1, from (s - 1)^2 on, lowest coefficient first.
const SQUARES: [u64; 64] = [
    0x1,
    0x1,
    0x6,
    0x8,
    0x1,
    0xa,
    0x54,
    0xa0,
    0x100,
    0x1,
    0x12,
    0x124,
    0x1248,
    0x2480,
    0x4800,
    0x8000,
    0x1,
    0x22,
    0x444,
    0x8888,
    0x111110,
    0x222200,
    0x444000,
    0x880000,
    0x1000000,
    0x1,
    0x42,
    0x1084,
    0x42108,
    0x1084210,
    0x42108420,
    0x84210800,
    0x108420000,
    0x210800000,
    0x420000000,
    0x800000000,
    0x1,
    0x82,
    0x4104,
    0x208208,
    0x10410410,
    0x820820820,
    0x41041041040,
    0x82082082000,
    0x104104100000,
    0x208208000000,
    0x410400000000,
    0x820000000000,
    0x1000000000000,
    0x1,
    0x102,
    0x10204,
    0x1020408,
    0x102040810,
    0x10204081020,
    0x1020408102040,
    0x102040810204080,
    0x204081020408000,
    0x408102040800000,
    0x810204080000000,
    0x1020408000000000,
    0x2040800000000000,
    0x4080000000000000,
    0x8000000000000000,
];

// The form of coefficient t of the product of two polynomials with s coefficients each.
pub fn square(s: u64, t: u64) -> u64
    requires { InTable s t }
    ensures { result ≡ target_form (shape_of kind.Poly s s 0) s s t }
{
    let d = s - 1;
    let at = (d * d + t) as usize;
    SQUARES[at]
}
