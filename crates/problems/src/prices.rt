// The prices of a problem's generators: refusal 5 of the costs handed in, then a price for each generator in a third lent buffer.
ghost use Rattle.std.specs.Prelude.{◌≡◌, take};
ghost use Rattle.problems.specs.prices.Prices.{unpriced, prices, priced_shape, priced};
ghost use Rattle.problems.specs.prices.Replies.{PricedLaid, PricesAsked, Lent, also_refused};

use super::Posed;
use kinds::Shape;

// Whether the costs handed in are too few, too many or too large, refusal 5.
pub fn unpriced(shape: Shape, costs: &[u64]) -> bool
    ensures { result ≡ unpriced shape costs.now }
{
    let kind = shape.kind;
    if costs.len() as u64 != kinds::handed(kind, shape.q) {
        return true;
    }
    words::any_wide(costs, kinds::COST_BITS)
}

// The prices of the c generators, from the buffer's start: of a list the costs handed in, of a map those of its generators' numbers.
pub fn fill_prices(shape: Shape, costs: &[u64], c: usize, v: &mut [u64])
    requires { PricesAsked shape costs.now c v.old }
    ensures { take c v.new ≡ prices shape costs.now }
{
    let kind = shape.kind;
    if kinds::is_list(kind) {
        maps::form_lists::copy_forms(costs, v);
        return;
    }
    let Some((n, m, _)) = kinds::sizes_of(shape) else {
        return;
    };
    maps::form_lists::fill_costs(n, m, c as u64, v);
}

// The answer of what is refused by 5 too: the lesser number is the reply.
fn also_refused(x: Posed) -> Posed
    ensures { result ≡ also_refused 5 x }
{
    let Posed::Refused(e) = x else {
        return Posed::Refused(5);
    };
    if e < 5 {
        Posed::Refused(e)
    } else {
        Posed::Refused(5)
    }
}

// The problem of that kind and sizes, with the forms of a list, from the start of g and t, and the prices of its generators from the start of v. After
// a refusal nothing is said of what g, t and v hold.
pub fn pose_priced_shape(
    shape: Shape,
    gs: &[u64],
    ts: &[u64],
    costs: &[u64],
    g: &mut [u64],
    t: &mut [u64],
    v: &mut [u64],
) -> Posed
    requires { Lent g.old t.old v.old }
    ensures { PricedLaid (priced_shape shape gs.now ts.now costs.now) result
        g.new t.new v.new }
{
    let x = super::pose_shape(shape, gs, ts, &gs[..0], g, t);
    if unpriced(shape, costs) {
        return also_refused(x);
    }
    let Posed::Are(c, _) = x else {
        return x;
    };
    fill_prices(shape, costs, c, v);
    x
}

// The problem of the kind with that number and its sizes, likewise.
pub fn pose_priced(
    number: u64,
    p: u64,
    q: u64,
    r: u64,
    gs: &[u64],
    ts: &[u64],
    costs: &[u64],
    g: &mut [u64],
    t: &mut [u64],
    v: &mut [u64],
) -> Posed
    requires { Lent g.old t.old v.old }
    ensures { PricedLaid (priced number p q r gs.now ts.now costs.now) result
        g.new t.new v.new }
{
    let Some(kind) = kinds::kind_numbered(number) else {
        return Posed::Refused(2);
    };
    let shape = Shape { kind, p, q, r };
    pose_priced_shape(shape, gs, ts, costs, g, t, v)
}
