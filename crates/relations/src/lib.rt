// Short relations among the values of numbers, one after the other: three or four values whose sum is 0, though the sum of their generators is not in a
// given span. They are found by a join of the sums of two values with themselves, in passes: the pairs whose first number is in a block of eight are put
// into a table, and the later pairs are looked up in it. So a pass has no more pairs than the table has places, whatever the values are.
// pairs   the table of a block's pairs
// rows    the later pairs of one number
#![tactic(auto)]

pub mod pairs;
pub mod rows;

ghost use Rattle.std.specs.Prelude.{◌<◌, ◌≤◌, length};
ghost use Rattle.relations.specs.Relations.{Sized, Tables, Placed, FirstPlace, NextPlace};
ghost use Rattle.relations.specs.Onward.{Asked, Begins, RowFound, BlockFound, Sought};

// Where the join is: the first number of the block, the later pair g and h, and the pointer of a pair of the block. Behind the last block `base` is no
// number any more.
#[derive(Clone, Copy)]
pub struct Place {
    pub base: usize,
    pub g: usize,
    pub h: usize,
    pub e: usize,
}

// The next match in the row of `u.g`, from the later number `u.h` and the pointer `u.e` on. Where there is none, `h` is behind the last and `e` is 0.
fn in_row(gens: &[u64], s: &[u64], v: &[u64], u: Place, heads: &[u16], links: &[u16]) -> Place
    requires { Asked gens.now v.now u.base u.g u.h u.e heads.now links.now × (u.base < length gens.now)
        × (u.g < length gens.now) }
    ensures { RowFound gens.now s.now v.now u.base u.g u.h u.e result }
{
    let n = gens.len();
    let base = u.base;
    let g = u.g;
    let x = v[g];
    if x == 0 {
        return Place {
            base,
            g,
            h: n + 1,
            e: 0,
        };
    }
    let mut h = u.h;
    let mut e = u.e;
    while h <= n {
        let y = x ^ rows::value_at(v, n, h);
        let f = gens[g] ^ rows::form_at(gens, h);
        e = pairs::next_match(gens, s, v, base, g, y, f, e, links);
        if e != 0 {
            return Place { base, g, h, e };
        }
        h = rows::next_filled(v, n, heads, x, h + 1);
        e = rows::head_at(v, n, heads, x, h);
    }
    Place { base, g, h, e: 0 }
}

// A number before the first that is wanted in the row of `g`: `g` itself, or, where the last one only is wanted, the one before `n`.
fn before_row(lines: bool, g: usize, n: usize) -> usize
    requires { (0 < n) × (g ≤ n) }
    ensures { Begins lines n g result }
{
    if lines { n - 1 } else { g }
}

// The next match in the block: in the row of `u.g` from `u.h` and the pointer `u.e` on, or in a later row. Where there is none, `e` is 0.
fn in_block(
    gens: &[u64],
    s: &[u64],
    v: &[u64],
    lines: bool,
    u: Place,
    heads: &[u16],
    links: &[u16],
) -> Place
    requires { Asked gens.now v.now u.base u.g u.h u.e heads.now links.now × (u.base < length gens.now) }
    ensures { BlockFound gens.now s.now v.now lines u.base u.g u.h u.e result }
{
    let n = gens.len();
    let base = u.base;
    let mut p = u;
    // A place, no index: the first row goes on from the place u, a later one begins before its first number.
    while p.g < n {
        let r = in_row(gens, s, v, p, heads, links);
        if r.e != 0 {
            return r;
        }
        let g = p.g + 1;
        p = Place {
            base,
            g,
            h: before_row(lines, g, n),
            e: 0,
        };
    }
    Place {
        base,
        g: p.g,
        h: p.h,
        e: 0,
    }
}

// The table of the block from `base` on, where that is a number.
fn table(gens: &[u64], v: &[u64], base: usize, heads: &mut [u16], links: &mut [u16])
    requires { Sized gens.now v.now heads.old links.old }
    ensures { Tables gens.now v.now base heads.new links.new }
{
    let n = gens.len();
    if base < n {
        pairs::link(v, n, base, heads, links);
    }
}

// The next match from the place `u` on.
fn seek(
    gens: &[u64],
    s: &[u64],
    v: &[u64],
    lines: bool,
    u: Place,
    heads: &mut [u16],
    links: &mut [u16],
) -> Place
    requires { Asked gens.now v.now u.base u.g u.h u.e heads.old links.old }
    ensures { Sought gens.now s.now v.now lines u result heads.new links.new }
{
    let n = gens.len();
    let mut p = u;
    // A place, no index: the first block goes on from the place u, each later one has a table of its own.
    while p.base < n {
        let r = in_block(gens, s, v, lines, p, heads, links);
        if r.e != 0 {
            return r;
        }
        let base = p.base + pairs::BLOCK;
        table(gens, v, base, heads, links);
        p = Place {
            base,
            g: base,
            h: n,
            e: 0,
        };
    }
    p
}

// The first place with a relation among the numbers from `start` on; of three values where `lines`. `s` has the rows of the span. What `heads` holds before
// plays no part.
pub fn first_place(
    gens: &[u64],
    s: &[u64],
    v: &[u64],
    lines: bool,
    start: usize,
    heads: &mut [u16],
    links: &mut [u16],
) -> Place
    requires { Sized gens.now v.now heads.old links.old × (start ≤ length gens.now) }
    ensures { FirstPlace gens.now s.now v.now lines start result heads.new links.new }
{
    table(gens, v, start, heads, links);
    let u = Place {
        base: start,
        g: start,
        h: gens.len(),
        e: 0,
    };
    seek(gens, s, v, lines, u, heads, links)
}

// The next place with a relation after `u`.
pub fn next_place(
    gens: &[u64],
    s: &[u64],
    v: &[u64],
    lines: bool,
    u: Place,
    heads: &mut [u16],
    links: &mut [u16],
) -> Place
    requires { Placed gens.now v.now u heads.old links.old × (u.base < length gens.now) }
    ensures { NextPlace gens.now s.now v.now lines u result heads.new links.new }
{
    let at = Place {
        base: u.base,
        g: u.g,
        h: u.h,
        e: links[u.e - 1] as usize,
    };
    seek(gens, s, v, lines, at, heads, links)
}
