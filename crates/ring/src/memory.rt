// Fixed memory.
ghost use Rattle.std.specs.Prelude.{◌≡◌, replicate};

// Memory that holds one value everywhere.
pub fn filled<T: Copy, const N: usize>(value: T) -> [T; N]
    ensures { result ≡ replicate «N» value }
{
    [value; N]
}
