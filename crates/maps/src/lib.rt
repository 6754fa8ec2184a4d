// The bilinear maps: which a_i b_j are terms of an output, the target forms, the number of generators (refusal 4), and the form and the
// cost of a generator's number.
// squares      the coefficient forms of square poly sizes, a table
// form_lists   a list's forms, a map's generators with their costs, and its targets, written to a lent buffer
// What the maps are on bits stands in specs/Textbook.antt. Sizes: `kinds`. Which problem is accepted: `problems`.
#![tactic(auto)]

ghost use Rattle.std.specs.Prelude.{◌≡◌};
ghost use Rattle.maps.specs.Target.{pair, target_form};
ghost use Rattle.maps.specs.Accepted.{Accepted, Terms};
ghost use Rattle.maps.specs.Generators.{first_mask, second_mask, generator_form, count_of, Numbered, MaskNumber};
ghost use Rattle.maps.specs.Costs.{generator_cost};

use kinds::{Kind, Shape};

pub mod form_lists;
pub mod squares;

// Whether a_i b_j is a term of output t.
fn is_pair(shape: Shape, t: u64, i: u64, j: u64) -> bool
    requires { Terms shape t i j }
    ensures { result ≡ pair shape t i j }
{
    match shape.kind {
        Kind::Poly | Kind::Short => i + j == t,
        Kind::Circ => (i + j) % shape.p == t,
        Kind::Mat => {
            i / shape.q == t / shape.r && i % shape.q == j / shape.r && j % shape.r == t % shape.r
        }
        Kind::List => false,
        Kind::Mid => i + j == shape.p - 1 + t,
    }
}

// The form of output t, coordinate by coordinate.
fn sum_of_pairs(shape: Shape, n: u64, m: u64, t: u64) -> u64
    requires { Accepted shape n m t }
    ensures { result ≡ target_form shape n m t }
{
    let mut form = 0u64;
    for s in 0..n * m {
        if is_pair(shape, t, s / m, s % m) {
            form ^= 1u64 << s;
        }
    }
    form
}

// The form of output t of a map with n and m variables. Those of square poly sizes stand in a table.
pub fn target(shape: Shape, n: u64, m: u64, t: u64) -> u64
    requires { Accepted shape n m t }
    ensures { result ≡ target_form shape n m t }
{
    let kind = shape.kind;
    if let Kind::Poly = kind {
        if shape.p == shape.q {
            return squares::square(shape.p, t);
        }
    }
    sum_of_pairs(shape, n, m, t)
}

// How many generators there are in n and m variables; `None`, above 4095, is refusal 4. From 13 variables on either side there are too many, so that
// nothing overflows.
pub fn generator_count(n: u64, m: u64) -> Option<u64>
    ensures { count_of n m ≡ result }
{
    if n == 0 || m == 0 {
        return Some(0);
    }
    if n > 12 || m > 12 {
        return None;
    }
    let c = ((1u64 << n) - 1) * ((1u64 << m) - 1);
    if c > kinds::GENERATORS as u64 {
        return None;
    }
    Some(c)
}

// The masks of the generator number j: the digits of j to the base 2^m - 1, each counted from 1.
fn first_mask(m: u64, j: u64) -> u64
    requires { MaskNumber m j }
    ensures { result ≡ first_mask m j }
{
    j / ((1u64 << m) - 1) + 1
}

fn second_mask(m: u64, j: u64) -> u64
    requires { MaskNumber m j }
    ensures { result ≡ second_mask m j }
{
    j % ((1u64 << m) - 1) + 1
}

// The form of the generator number j.
pub fn generator_form(n: u64, m: u64, j: u64) -> u64
    requires { Numbered n m j }
    ensures { result ≡ generator_form n m j }
{
    let a = first_mask(m, j);
    let b = second_mask(m, j);
    forms::products::product(n as usize, m as usize, a, b)
}

// The cost of the generator number j: the ones of both masks, less 2.
pub fn generator_cost(m: u64, j: u64) -> u64
    requires { MaskNumber m j }
    ensures { result ≡ generator_cost m j }
{
    let a = first_mask(m, j);
    let b = second_mask(m, j);
    (forms::ones(a) + forms::ones(b)) as u64 - 2
}
