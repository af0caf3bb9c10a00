// Items copied from one list to another.
ghost use Rattle.std.specs.Prelude.{◌≡◌, length};

// Writes items over as many others, place by place: std's `copy_from_slice` is compiled to a call of `memmove`, and the library asks
// a host for no more than `memcpy` and `memset`.
pub fn copy_items<T: Copy>(to: &mut [T], from: &[T])
    requires { length to.old ≡ length from.now }
    ensures { to.new ≡ from.now }
{
    for i in 0..from.len() {
        to[i] = from[i];
    }
}
