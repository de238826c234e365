// Spec 7.1, 7.2: a curve is flat outside its points, and straight between two of them.
ghost use Rattle.std.specs.Prelude.{◌≡◌, [], ◌∷◌, ◌≤◌, pos, nat_abs, ◌+ℤ◌, ◌-ℤ◌, ◌*ℤ◌};
ghost use Rattle.std.specs.Int.Signed.{quot_z};
ghost use Rattle.rules.specs.Curves.{curve};
ghost use Rattle.powerlaws.specs.Points.{Inside, Rises, NonNegative};

use rules::Point;

// Between two points: the left power plus (power difference times distance by gap), the quotient cut toward zero.
// No division where the curve is flat.
fn between(left: i32, right: i32, distance: u32, gap: u32) -> i32
    requires { Inside left right distance gap }
    ensures { result ≡ left +ℤ quot_z ((right -ℤ left) *ℤ pos distance) (pos gap) }
{
    if left == right {
        return left;
    }
    left + (right - left) * (distance as i32) / (gap as i32)
}

// The curve through two points, at any voltage.
fn segment(a: Point, b: Point, v: u32) -> i32
    requires { Rises (a ∷ b ∷ []) }
    ensures { result ≡ curve (a ∷ b ∷ []) v }
{
    let start = a.volts;
    let end = b.volts;
    let left = a.power;
    let right = b.power;
    if v < start {
        left
    } else if v < end {
        between(left, right, v - start, end - start)
    } else {
        right
    }
}

// The volt-var curve: its four points make three segments.
pub fn volt_var(points: [Point; 4], v: u32) -> i32
    requires { Rises points }
    ensures value { result ≡ curve points v }
    ensures result_bound { nat_abs result ≤ 10000 }
{
    let a = points[0];
    let b = points[1];
    let c = points[2];
    let d = points[3];
    let second = b.volts;
    let third = c.volts;
    if v < second {
        segment(a, b, v)
    } else if v < third {
        segment(b, c, v)
    } else {
        segment(c, d, v)
    }
}

// The volt-watt curve: its two points make one segment, and no power is negative.
pub fn volt_watt(points: [Point; 2], v: u32) -> u32
    requires { (Rises points) × (NonNegative points) }
    ensures value { result ≡ nat_abs (curve points v) }
    ensures upper_bound { result ≤ 10000 }
{
    let a = points[0];
    let b = points[1];
    segment(a, b, v) as u32
}
