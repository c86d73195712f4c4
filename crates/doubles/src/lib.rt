// A whole number as a double and back: what becomes of it on a page that holds it as a number.
#![tactic(auto)]

ghost use Rattle.std.specs.Prelude.{◌≡◌, ◌-◌, ◌^◌, ◌≤◌, min, false, pos};
ghost use Rattle.std.specs.Float.Ieee.{of_int};
ghost use Rattle.std.specs.Float.{binary64};
ghost use Rattle.std.specs.Float.Ieee.Exact.{HasValue};
ghost use Rattle.doubles.specs.Doubles.{double};

// Up to here every whole number is a double. The limit of bare numbers is another matter, and is in `numbers`.
const EXACT: u64 = 9007199254740992;

// The double of x: its value is x rounded to 53 significant bits.
pub fn double_of(x: u64) -> f64
    ensures { (result ≡ of_int binary64 (pos x)) × HasValue result false (double x) 1 }
{
    if x <= EXACT {
        return x as f64;
    }
    std::num::nearest_u64_to_f64(x)
}

// Both casts lose nothing.
fn exact_back(x: u64) -> u64
    requires { x ≤ 2 ^ 53 }
    ensures { result ≡ x }
{
    let double = x as f64;
    double as u64
}

// Above EXACT a plain cast is undefined, so the kit's own stand here. The double of the largest numbers is two to the 64, which no u64 holds.
fn rounded_back(x: u64) -> u64
    ensures { result ≡ min (double x) (2 ^ 64 - 1) }
{
    let double = double_of(x);
    if double < 18446744073709551616.0 {
        return std::num::truncating_f64_to_u64(double);
    }
    u64::MAX
}

// x as a double and back.
pub fn through_double(x: u64) -> u64
    ensures { result ≡ min (double x) (2 ^ 64 - 1) }
{
    if x <= EXACT {
        return exact_back(x);
    }
    rounded_back(x)
}
