// Internal: the size of a figure of month tables (02, T-04).
ghost use Rattle.std.specs.Prelude.{◌≡◌, nat_abs};

// |figure|. In 32 bits, which suffice for -2^31 too, its product with a price is one multiplication.
pub fn size(figure: i32) -> u32
    ensures { result ≡ nat_abs figure }
{
    numbers::magnitude(i64::from(figure)) as u32
}
