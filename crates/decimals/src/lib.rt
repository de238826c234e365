// Whole numbers as decimals without padding, each into a lent buffer.
#![tactic(auto)]

ghost use Rattle.std.specs.Prelude.{◌≡◌, ◌+◌, ◌≤◌, length};
ghost use Rattle.rules.specs.Text.{decimal};
ghost use Rattle.buffers.specs.Written.{Wrote};

use buffers::put_digits;

// How many digits a number has.
fn digits(n: u64) -> usize
    ensures value { result ≡ length (decimal n) }
    ensures upper_bound { result ≤ 20 }
{
    if n < 10 {
        return 1;
    }
    n.ilog10() as usize + 1
}

// A number. Most are short: a width that is known is written without a loop.
pub fn put_decimal(out: &mut [u8], at: usize, n: u64) -> usize
    requires { at + 20 ≤ length out.old }
    ensures wrote { Wrote out.old at out.new result (decimal n) }
    ensures upper_bound { result ≤ at + 20 }
{
    if n < 10 {
        return put_digits::<10, 48>(out, at, 1, n);
    }
    if n < 100 {
        return put_digits::<10, 48>(out, at, 2, n);
    }
    if n < 1000 {
        return put_digits::<10, 48>(out, at, 3, n);
    }
    if n < 10000 {
        return put_digits::<10, 48>(out, at, 4, n);
    }
    put_digits::<10, 48>(out, at, digits(n), n)
}
