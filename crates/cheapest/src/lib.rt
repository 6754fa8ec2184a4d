// The cheapest formula of a space, and the better of two. A generator costs what stands at its number among the prices.
// ordering   numbers in ascending order, and the generators by price
// That what is taken by price is cheapest stands in `linear`.
#![tactic(auto)]

ghost use Rattle.std.specs.Prelude.{◌≡◌, ◌<◌, ◌≤◌, length};
ghost use Rattle.kinds.specs.Limits.{most_products};
ghost use Rattle.linear.specs.Prices.{total};
ghost use Rattle.cheapest.specs.Offers.{Listed, Costed, Along, taken_along, Taken, Written, better, replaced, offered};

use bases::Basis;

pub mod ordering;

// Words for a formula: its cost, then the numbers of its products.
pub const FORMULA: usize = kinds::PRODUCTS + 1;

// Along `order` each number whose word in `h` is 0 and whose generator is not in the span of those taken: ascending from the start of `numbers`.
// The reply is how many they are.
fn take_along(gens: &[u64], h: &[u64], order: &[u64], numbers: &mut [u64]) -> usize
    requires { (Listed gens.now h.now order.now) × (most_products ≤ length numbers.old) }
    ensures { Taken gens.now h.now order.now numbers.old result numbers.new }
{
    let mut b = Basis::empty();
    let mut n = 0;
    for x in order {
        let j = *x as usize;
        let g = gens[j];
        if h[j] == 0 && !b.contains(g) {
            b = b.insert(g);
            ordering::place(numbers, n, *x);
            n += 1;
        }
    }
    n
}

// What the generators with these numbers cost together.
fn total(prices: &[u64], numbers: &[u64]) -> u64
    requires { Costed prices.now numbers.now }
    ensures { result ≡ total prices.now numbers.now }
{
    let mut sum = 0;
    for x in numbers {
        sum += prices[*x as usize];
    }
    sum
}

// The formula taken along `order` from the start of `out`: its cost, then the numbers of its products. The reply is how many they are.
fn choose_along(gens: &[u64], h: &[u64], order: &[u64], prices: &[u64], out: &mut [u64]) -> usize
    requires { (Along gens.now h.now order.now prices.now) × (most_products < length out.old) }
    ensures { Written prices.now (taken_along gens.now h.now order.now) out.old
        result out.new }
{
    let mut numbers = [0u64; kinds::PRODUCTS];
    let n = take_along(gens, h, order, &mut numbers);
    let taken = words::first_words(&numbers, n);
    out[0] = total(prices, taken);
    words::copy(taken, out, 1);
    n
}

// Whether a is the first one or stands before b in a dictionary: of two formulae the cheaper, among equals the one whose numbers come first.
fn is_better(first: bool, a: &[u64], b: &[u64]) -> bool
    requires { length a.now ≡ length b.now }
    ensures { result ≡ better first a.now b.now }
{
    first || a < b
}

// `new` from the start of `held`, where it is the first one or stands before what is held.
fn replace(first: bool, new: &[u64], held: &mut [u64])
    requires { length new.now ≤ length held.old }
    ensures { held.new ≡ replaced first new.now held.old }
{
    if is_better(first, new, words::first_words(held, new.len())) {
        words::copy(new, held, 0);
    }
}

// The cheapest formula of a space, offered to `out`, which holds the best so far: its cost, then the numbers of its products.
pub fn keep(gens: &[u64], h: &[u64], order: &[u64], prices: &[u64], first: bool, out: &mut [u64])
    requires { (Along gens.now h.now order.now prices.now) × (most_products < length out.old) }
    ensures { out.new ≡ offered prices.now first
        (taken_along gens.now h.now order.now) out.old }
{
    let mut candidate = [0u64; FORMULA];
    let n = choose_along(gens, h, order, prices, &mut candidate);
    replace(first, words::first_words(&candidate, n + 1), out);
}
