// Internal: bits in lent words, 64 to a word. A caller meets each `requires`.
ghost use Rattle.std.specs.Prelude.{◌≡◌, ◌*◌, ◌<◌, length};
ghost use Rattle.repeated_pairs.specs.Pairs.{bit_at, with_bit};

pub fn bit_at(bits: &[u64], k: usize) -> bool
    requires { k < 64 * length bits.now }
    ensures { result ≡ bit_at bits.now k }
{
    (bits[k / 64] >> (k % 64)) % 2 == 1
}

pub fn set_bit(bits: &mut [u64], k: usize)
    requires { k < 64 * length bits.old }
    ensures { bits.new ≡ with_bit bits.old k }
{
    let at = k / 64;
    bits[at] = bits[at] | (1 << (k % 64));
}
