// A line's numbers as the points of a curve.
#![tactic(auto)]

ghost use Rattle.std.specs.Prelude.{◌≡◌, ◌≤◌};
ghost use Rattle.points.specs.Points.{points_in};

use rules::Point;
use text::magnitude;

// The first numbers of a line, two for each point.
pub fn points<const N: usize>(n: [i32; 8]) -> [Point; N]
    requires { N ≤ 4 }
    ensures { result ≡ points_in n N }
{
    let mut points = [Point { volts: 0, power: 0 }; N];
    for i in 0..N {
        points[i] = Point {
            volts: magnitude(n[2 * i]),
            power: n[2 * i + 1],
        };
    }
    points
}
