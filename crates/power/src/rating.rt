// Spec 7.4: the watts that the nameplate leaves beside vars.
ghost use Rattle.std.specs.Prelude.{◌≡◌, ◌*◌, ◌≤◌, min, nat_abs};
ghost use Rattle.rules.specs.Curves.{nameplate};
ghost use Rattle.roots.specs.Root.{IsRoot};

// The square of a signed power.
fn square(vars: i32) -> u32
    requires { nat_abs vars ≤ 10000 }
    ensures { result ≡ nat_abs vars * nat_abs vars }
{
    (vars * vars) as u32
}

// The root of room, rounded down, by Newton's rule from above.
fn root(room: u32) -> u32
    requires { room ≤ 100000000 }
    ensures { IsRoot room result }
{
    let mut x = 10000;
    while room < x * x {
        x = (x + room / x) / 2;
    }
    x
}

// The most watts beside vars.
fn nameplate(vars: i32) -> u32
    requires { nat_abs vars ≤ 10000 }
    ensures { result ≡ nameplate vars }
{
    root(100000000 - square(vars))
}

// The least of p and the most watts beside vars. Where both fit the nameplate no root is taken.
pub fn within_nameplate(p: u32, vars: i32) -> u32
    requires { (p ≤ 10000) × (nat_abs vars ≤ 10000) }
    ensures { result ≡ min p (nameplate vars) }
{
    if p * p + square(vars) <= 100000000 {
        p
    } else {
        nameplate(vars)
    }
}
