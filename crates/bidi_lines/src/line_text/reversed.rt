// Code units in reverse order.
ghost use Rattle.std.specs.Prelude.{◌≡◌, length, reverse};

// Writes code units in reverse order. The loop has no branch, so it moves many units at once.
pub(super) fn write_reversed<U: Copy>(units: &[U], out: &mut [U])
    requires { length out.old ≡ length units.now }
    ensures { out.new ≡ reverse units.now }
{
    let len = units.len();
    for at in 0..len {
        out[len - 1 - at] = units[at];
    }
}
