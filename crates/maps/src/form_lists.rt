// Written from the start of a lent buffer: the forms of a list, the generators, their costs and the targets of a map.
ghost use Rattle.std.specs.Prelude.{◌≡◌, ◌≤◌, length, take};
ghost use Rattle.maps.specs.Target.{target_form};
ghost use Rattle.maps.specs.Generators.{list_of, generator_forms};
ghost use Rattle.maps.specs.Costs.{generator_costs};
ghost use Rattle.maps.specs.form_lists.Fills.{Made, Mapping};

use kinds::Shape;

// The forms handed in, from the buffer's start.
pub fn copy_forms(xs: &[u64], out: &mut [u64])
    requires { length xs.now ≤ length out.old }
    ensures { take (length xs.now) out.new ≡ xs.now }
{
    out[..xs.len()].copy_from_slice(xs);
}

// The c generators in n and m variables, from the buffer's start.
pub fn fill_generators(n: u64, m: u64, c: u64, g: &mut [u64])
    requires { Made n m c g.old }
    ensures { take c g.new ≡ generator_forms n m }
{
    for j in 0..c {
        g[j as usize] = super::generator_form(n, m, j);
    }
}

// The costs of the c generators in n and m variables, from the buffer's start.
pub fn fill_costs(n: u64, m: u64, c: u64, out: &mut [u64])
    requires { Made n m c out.old }
    ensures { take c out.new ≡ generator_costs n m }
{
    for i in 0..c {
        out[i as usize] = super::generator_cost(m, i);
    }
}

// The u targets of a map, from the buffer's start.
pub fn fill_targets(shape: Shape, n: u64, m: u64, u: u64, t: &mut [u64])
    requires { Mapping shape n m u t.old }
    ensures { take u t.new ≡ list_of (target_form shape n m) 0 u }
{
    for i in 0..u {
        t[i as usize] = super::target(shape, n, m, i);
    }
}
